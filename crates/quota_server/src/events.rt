// All lines of an events file.
ghost use Rattle.std.specs.Prelude.{◌≡◌, ◌≤◌, IfOk, length, map, string_bytes};
ghost use Rattle.rate_types.specs.declared.limits.TheConstants.{MOST_LINES};
ghost use Rattle.text_lines.specs.Lines.{cut};
ghost use Rattle.quota_server.specs.Outcomes.{pool_output, server_after};
ghost use Rattle.quota_server.specs.Servers.{AllFit};

use crate::server::Server;
use crate::step::take_bytes;
use quota_pools::Pools;
use rate_types::OutOfMemory;
use std::alloc::Global;
use std::hash::RandomState;
use text_lines::cut_line;

/// The output of an events file by pools: a line for each of its lines, in order. The shares that were written then fit each pool at each
/// moment. The clients of each pool are found by a seed that is drawn.
pub fn pool_lines(
    alloc: Global,
    pools: Pools,
    seed: &RandomState,
    bytes: &[u8],
) -> Result<Vec<String>, OutOfMemory>
    requires lines { length (cut bytes.now) ≤ MOST_LINES }
    ensures output { IfOk result (λ v. map (λ t. string_bytes t) v.items ≡ pool_output pools bytes.now) }
    ensures fit { IfOk result (λ v. AllFit (server_after pools bytes.now)) }
{
    let mut server = Server::make(alloc, pools, seed)?;
    let mut lines = Vec::new(alloc);
    let mut number = 0u32;
    let mut rest = bytes;
    'lines: while rest.len() > 0 {
        let (first, after) = cut_line(rest);
        number += 1;
        let mut line = String::new(alloc);
        take_bytes(alloc, &mut server, &mut line, number, first)?;
        lines.push(line)?;
        rest = after;
    }
    Ok(lines)
}
