// Passes from tokens, and tokens from passes.
ghost use Rattle.std.specs.Prelude.{◌≡◌, [], ◌∷◌, All, IfOk, map, vec_len};
ghost use Rattle.std.specs.Arc.{arc_value};
ghost use Rattle.told_list.specs.Tokens.{list_of, view, IsFresh};
ghost use Rattle.config_versions.specs.PassState.{IsFirst};
ghost use Rattle.config_versions.specs.Passes.{pass_state};

use crate::pass::VersionPass;
use crate::version_list::VersionList;
use rate_types::OutOfMemory;
use std::alloc::Global;
use std::sync::Arc;
use told_list::Seen;

/// A pass at the first version.
fn first_pass<I>(seen: Seen<VersionList<I>, I>, index: Arc<I>) -> VersionPass<I>
    requires fresh { IsFresh (arc_value index ∷ []) (view seen) }
    ensures token { result.seen ≡ seen }
    ensures first { IsFirst (arc_value index) (pass_state result) }
{
    VersionPass {
        seen,
        version: 0,
        index,
    }
}

/// A pass at the first version for each token.
pub fn passes_of<I: Drop>(
    alloc: Global,
    seats: Vec<Seen<VersionList<I>, I>>,
    first: &Arc<I>,
) -> Result<Vec<VersionPass<I>>, OutOfMemory>
    requires fresh { All (λ s. IsFresh (arc_value first.now ∷ []) (view s)) seats.items }
    ensures tokens { IfOk result (λ v. map (λ p. p.seen) v.items ≡ seats.items) }
    ensures first { IfOk result (λ v. All (λ p. IsFirst (arc_value first.now) (pass_state p)) v.items) }
{
    let mut passes = Vec::with_capacity(alloc, seats.len())?;
    for seen in seats {
        let index = Arc::try_clone(first)?;
        let pass = first_pass(seen, index);
        passes.push_reserved(pass);
    }
    Ok(passes)
}

/// The token of each pass.
pub fn tokens_of<I: Drop>(
    alloc: Global,
    passes: Vec<VersionPass<I>>,
) -> Result<Vec<Seen<VersionList<I>, I>>, OutOfMemory>
    ensures { IfOk result (λ v. v.items ≡ map (λ p. p.seen) passes.items) }
{
    let mut seats = Vec::with_capacity(alloc, passes.len())?;
    for pass in passes {
        let VersionPass {
            seen,
            version: _,
            index: _,
        } = pass;
        seats.push_reserved(seen);
    }
    Ok(seats)
}
