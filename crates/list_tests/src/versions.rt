ghost use Rattle.std.specs.Prelude.{◌≡◌, All, IfOk, IfSome, vec_len};
ghost use Rattle.config_versions.specs.Passes.{IsPassOf, pass_count};

use config_versions::{ClosedVersions, InstallFault, VersionPass, Versions};
use rate_types::OutOfMemory;
use std::alloc::Global;
use std::sync::{Arc, Wait};
use std::test::Fail;
use std::thread;

fn close_two(
    alloc: Global,
    versions: Versions<u8>,
    one: VersionPass<u8>,
    two: VersionPass<u8>,
) -> Result<ClosedVersions<u8>, OutOfMemory>
    requires every { pass_count versions ≡ 2 }
    requires passes { IsPassOf versions one × IsPassOf versions two }
{
    let mut passes = Vec::with_capacity(alloc, 2)?;
    passes.push_reserved(one);
    passes.push_reserved(two);
    versions.close(alloc, passes)
}

#[test]
fn a_pass_is_told_of_a_version_that_another_installed(rt: HostRuntime) -> Result<(), Fail> {
    let alloc = rt.alloc();
    let first = Arc::new(alloc, 10u8)?;
    let (versions, mut passes) = Versions::make(alloc, first, 2)?;
    let (Some(mut one), Some(mut zero)) = (passes.pop(), passes.pop()) else {
        unreachable!()
    };
    let before = versions.is_behind(&mut one);
    let next = Arc::new(alloc, 11u8)?;
    let installed = versions.install(&rt, &mut zero, next);
    let behind = versions.is_behind(&mut one);
    let old = (one.version(), *one.index());
    let refreshed = versions.refresh(&rt, &mut one);
    let after = versions.is_behind(&mut one);
    let new = (one.version(), *one.index());
    let installer = (zero.version(), *zero.index());
    let closed = close_two(alloc, versions, zero, one)?;
    assert!(rt; before == None && installed == Ok(1));
    assert!(rt; behind == Some(1) && old == (0, 10));
    assert!(rt; refreshed == Ok(()) && after == None);
    assert!(rt; new == (1, 11) && installer == (1, 11));
    assert!(rt; closed.last == 1 && *closed.newest == 11);
    Ok(())
}

/// Installs versions until there is no room for another.
fn fill<R: Wait>(
    rt: &R,
    versions: &Versions<u8>,
    pass: &mut VersionPass<u8>,
    next: &Arc<u8>,
) -> Result<(), InstallFault>
    requires pass { IsPassOf versions.now pass.old }
    ensures pass { IsPassOf versions.now pass.new }
{
    for _ in 0..1_048_575u32 {
        let Ok(own) = Arc::try_clone(next) else {
            return Err(InstallFault::OutOfMemory);
        };
        versions.install(rt, pass, own)?;
    }
    Ok(())
}

#[test]
fn there_are_at_most_1_048_576_versions(rt: HostRuntime) -> Result<(), Fail> {
    let alloc = rt.alloc();
    let first = Arc::new(alloc, 1u8)?;
    let next = Arc::new(alloc, 2u8)?;
    let (versions, mut passes) = Versions::make(alloc, first, 2)?;
    let (Some(mut one), Some(mut zero)) = (passes.pop(), passes.pop()) else {
        unreachable!()
    };
    let filled = fill(&rt, &versions, &mut zero, &next);
    let full = versions.install(&rt, &mut one, next);
    assert!(rt; filled == Ok(()) && zero.version() == 1_048_575);
    assert!(rt;
        full == Err(InstallFault::VersionsFull {
            versions: 1_048_576
        })
    );
    assert!(rt; one.version() == 1_048_575 && *one.index() == 2);
    Ok(())
}

/// Installs a version and refreshes, in turns.
fn work<R: Wait>(
    rt: &R,
    versions: &Versions<u8>,
    mut pass: VersionPass<u8>,
    next: &Arc<u8>,
) -> Option<VersionPass<u8>>
    requires pass { IsPassOf versions.now pass }
    ensures pass { IfSome result (λ p. IsPassOf versions.now p) }
{
    for _ in 0..50u32 {
        let own = Arc::try_clone(next).ok()?;
        versions.install(rt, &mut pass, own).ok()?;
        versions.refresh(rt, &mut pass).ok()?;
    }
    Some(pass)
}

/// Whether each pass is at this version once it is refreshed.
fn all_at<R: Wait>(
    rt: &R,
    versions: &Versions<u8>,
    passes: Vec<Option<VersionPass<u8>>>,
    version: u32,
) -> bool
    requires passes { All (λ o. IfSome o (λ p. IsPassOf versions.now p)) passes.items }
{
    for pass in passes {
        let Some(mut pass) = pass else { return false };
        if versions.refresh(rt, &mut pass).is_err() || pass.version() != version {
            return false;
        }
    }
    true
}

#[test]
fn four_threads_end_at_one_version(rt: HostRuntime) -> Result<(), Fail> {
    let alloc = rt.alloc();
    let first = Arc::new(alloc, 0u8)?;
    let next = Arc::new(alloc, 1u8)?;
    let (versions, passes) = Versions::make(alloc, first, 4)?;
    let ended = thread::map_vec(
        &rt,
        passes,
        &|pass: VersionPass<u8>| -> Option<VersionPass<u8>>
            requires { IsPassOf versions pass }
            ensures { IfSome result (λ p. IsPassOf versions p) }
        { work(&rt, &versions, pass, &next) },
    )?;
    assert!(rt; all_at(&rt, &versions, ended, 200));
    Ok(())
}

fn needs_send<T: Send>() {}

fn needs_sync<T: Sync>() {}

/// Threads share the versions, and each of them owns a pass.
fn crosses_threads<I: Drop + Send + Sync>() {
    needs_send::<Versions<I>>();
    needs_sync::<Versions<I>>();
    needs_send::<VersionPass<I>>();
}
