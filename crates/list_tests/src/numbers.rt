// Numbers of lines, each drawn once.
ghost use Rattle.std.specs.Prelude.{◌≡◌, ◌≤◌};
ghost use Rattle.line_numbers.specs.Batches.{batches_id, batches_of};

use line_numbers::{BatchDrawer, Batches, LineNumbers};
use std::alloc::Global;
use std::test::Fail;
use std::thread::{Threads, map_vec};

#[test]
fn one_drawer_draws_each_number_in_order(rt: HostRuntime) -> Result<(), Fail> {
    let (numbers, mut drawers) = LineNumbers::make(rt.alloc(), 2, 1)?;
    let Some(mut drawer) = drawers.pop() else {
        unreachable!()
    };
    let first = numbers.draw(&mut drawer);
    let second = numbers.draw(&mut drawer);
    let third = numbers.draw(&mut drawer);
    let fourth = numbers.draw(&mut drawer);
    drawers.push(drawer)?;
    assert_eq!(rt; (first, second), (Some(0), Some(1)));
    assert_eq!(rt; (third, fourth), (None, None));
    assert_eq!(rt; numbers.close(drawers), 2);
    Ok(())
}

#[test]
fn two_drawers_draw_batches(rt: HostRuntime) -> Result<(), Fail> {
    let (batches, mut drawers) = Batches::make(rt.alloc(), 5, 2, 2)?;
    let (Some(mut one), Some(mut other)) = (drawers.pop(), drawers.pop()) else {
        unreachable!()
    };
    let firsts = (batches.draw(&mut one), batches.draw(&mut other));
    let seconds = (batches.draw(&mut one), batches.draw(&mut other));
    let thirds = (batches.draw(&mut other), batches.draw(&mut one));
    let fourth = batches.draw(&mut other);
    assert_eq!(rt; firsts, (Some(0), Some(2)));
    assert_eq!(rt; seconds, (Some(1), Some(3)));
    assert_eq!(rt; thirds, (Some(4), None));
    assert_eq!(rt; fourth, None);
    Ok(())
}

/// A drawer and the numbers that it drew.
#[derive(Drop)]
struct Drawn {
    drawer: BatchDrawer,
    numbers: Vec<u64>,
}

fn draw_all(alloc: Global, batches: &Batches, mut drawer: BatchDrawer) -> Option<Drawn>
    requires { batches_of drawer ≡ batches_id batches.now }
{
    let mut drawn = Vec::with_capacity(alloc, 10_000).ok()?;
    for _ in 0..10_000u32 {
        let Some(number) = batches.draw(&mut drawer) else {
            return Some(Drawn {
                drawer,
                numbers: drawn,
            });
        };
        drawn.push_reserved(number);
    }
    None
}

// How many of 5,000 numbers so many threads draw in batches of a size, and how many of them twice.
fn mark<R: Threads + Sync>(
    rt: &R,
    alloc: Global,
    threads: u32,
    size: u64,
) -> Result<(usize, u64), Fail>
    requires threads { (1 ≤ threads) × (threads ≤ 8) }
    requires size { 1 ≤ size }
{
    let (batches, drawers) = Batches::make(alloc, 5_000, size, threads)?;
    let done = map_vec(
        rt,
        drawers,
        &|drawer: BatchDrawer| -> Option<Drawn>
            requires { batches_of drawer ≡ batches_id batches }
        { draw_all(alloc, &batches, drawer) },
    )?;
    let mut seen = vec![in alloc; false; 5_000]?;
    let mut twice = 0u64;
    for drawn in done {
        for number in drawn.ok_or("each thread finds the end")?.numbers {
            let place = number as usize;
            if place < seen.len() {
                twice = twice.wrapping_add(u64::from(seen[place]));
                seen[place] = true;
            }
        }
    }
    let all = seen.iter().filter(|is_drawn| **is_drawn).count();
    Ok((all, twice))
}

#[test]
fn four_threads_draw_each_number_once(rt: HostRuntime) -> Result<(), Fail> {
    let singly = mark(&rt, rt.alloc(), 4, 1)?;
    let in_batches = mark(&rt, rt.alloc(), 4, 64)?;
    assert_eq!(rt; singly, (5_000, 0));
    assert_eq!(rt; in_batches, (5_000, 0));
    Ok(())
}
