ghost use Rattle.std.specs.Prelude.{◌≡◌, ◌++◌, IfOk, length, map};
ghost use Rattle.counter_directory.specs.Passes.{knows};
ghost use Rattle.counter_directory.specs.Tokens.{pass_of};

use crate::claim::Claim;
use crate::claim_table::KeptTable;
use counter_cells::CellNaming;
use rate_types::OutOfMemory;
use std::alloc::Global;
use std::marker::Model;
use told_list::{IntoSeen, Seen};

/// What one thread has of a directory: it knows a prefix of the list of claims. It goes with the
/// [`Directory`](crate::Directory) that it was made with. Contracts see it as a `DirectoryPassView`.
#[derive(Drop)]
pub struct DirectoryPass<N: CellNaming> {
    pub(crate) seen: Seen<KeptTable<N>, Claim>,
}

impl<N: CellNaming> Model for DirectoryPass<N> {
    ghost use Rattle.counter_directory.specs.Passes.{DirectoryPassView};
    ghost use Rattle.counter_directory.specs.Tokens.{pass_of};

    ghost Value = { DirectoryPassView };

    ghost view = { λ p. pass_of p.seen };
}

impl<N: CellNaming> DirectoryPass<N> {
    /// How many claims the pass knows.
    pub fn claims(&self) -> u64
        ensures { result ≡ length (knows self.now).known }
    {
        self.seen.length()
    }
}

impl<N: CellNaming> IntoSeen<KeptTable<N>> for DirectoryPass<N> {
    ghost list = { λ p. p.list_id };

    ghost known = { λ p. p.claims.known };

    ghost own = { λ p. p.claims.own };

    fn into_seen(self) -> Seen<KeptTable<N>, Claim> {
        let DirectoryPass { seen } = self;
        seen
    }
}

/// A pass for each token.
pub(crate) fn passes_of<N: CellNaming>(
    alloc: Global,
    tokens: Vec<Seen<KeptTable<N>, Claim>>,
) -> Result<Vec<DirectoryPass<N>>, OutOfMemory>
    ensures { IfOk result (λ v. v.items ≡ map pass_of tokens.items) }
{
    let mut passes = Vec::with_capacity(alloc, tokens.len())?;
    for seen in tokens {
        passes.push_reserved(DirectoryPass { seen });
    }
    Ok(passes)
}
