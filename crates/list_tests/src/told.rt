ghost use Rattle.std.specs.Prelude.{◌≡◌, ◌≤◌, ℕ, All, IfOk, vec_len};
ghost use Rattle.told_list.specs.Tokens.{list_of, list_id, first_value, tokens};

use rate_types::OutOfMemory;
use std::alloc::Global;
use std::sync::Wait;
use std::test::Fail;
use std::thread::{Threads, join};
use told_list::{Act, Kept, Seen, Told};

/// Numbers of an owner, whom no turn changes.
#[derive(Drop)]
pub struct Numbers {
    items: Vec<u64>,
    owner: u64,
    ghost few: { vec_len items ≤ 100 },
}

impl Kept for Numbers {
    type Item = u64;

    ghost MOST = { 100 };

    const MOST: u64 = 100;

    ghost Fixed = { ℕ };

    ghost fixed = { λ n. n.owner };

    ghost items = { λ n. n.items.items };

    fn len(&self) -> u64 {
        self.items.len() as u64
    }
}

/// Writes the next number of a variable that is borrowed.
#[derive(Drop)]
pub struct Push<'a> {
    next: &'a mut u64,
    owner: u64,
}

impl<'a> Act<Numbers> for Push<'a> {
    ghost use Rattle.std.specs.Prelude.{◌≡◌, MatchBool, ◌++◌, ◌∷◌, []};

    type Out = bool;

    ghost ready = { λ p n. p.owner ≡ n.owner };

    ghost did = { λ p n done q m. (q.next.ghost_name ≡ p.next.ghost_name) × (q.next.now ≡ p.next.now)
        × MatchBool done (m.items.items ≡ n.items.items ++ p.next.now ∷ []) (m.items.items ≡ n.items.items) };

    fn act(&mut self, kept: &mut Numbers) -> bool {
        prove!(self.owner == kept.owner);
        if kept.items.len() >= 100 || kept.items.reserve(1).is_err() {
            return false;
        }
        kept.items.push_reserved(*self.next);
        true
    }
}

/// A list of two tokens, and a number that each of them writes.
fn two_of(alloc: Global) -> Result<(Told<Numbers>, Vec<Seen<Numbers, u64>>), OutOfMemory>
    ensures owner { IfOk result (λ r. (first_value r.0).owner ≡ 7) }
    ensures tokens { IfOk result (λ r. (tokens r.0 ≡ 2) × (vec_len r.1 ≡ 2) × All (λ s. list_of s ≡ list_id r.0) r.1.items) }
{
    let kept = Numbers {
        items: Vec::new(alloc),
        owner: 7,
    };
    let (told, seats) = Told::make(alloc, kept, 2)?;
    Ok((told, seats))
}

fn push_next<R: Wait>(
    rt: &R,
    told: &Told<Numbers>,
    seen: &mut Seen<Numbers, u64>,
    owner: u64,
    next: &mut u64,
) -> bool
    requires seen { list_of seen.old ≡ list_id told.now }
    requires owner { owner ≡ (first_value told.now).owner }
    ensures seen { list_of seen.new ≡ list_of seen.old }
    ensures next { next.new ≡ next.old }
{
    told.with(rt, seen, &mut Push { next, owner })
}

fn close_two(
    alloc: Global,
    told: Told<Numbers>,
    one: Seen<Numbers, u64>,
    two: Seen<Numbers, u64>,
) -> Result<Numbers, OutOfMemory>
    requires every { tokens told ≡ 2 }
    requires seen { (list_of one ≡ list_id told) × (list_of two ≡ list_id told) }
{
    let mut seats = Vec::with_capacity(alloc, 2)?;
    seats.push_reserved(one);
    seats.push_reserved(two);
    Ok(told.close(seats))
}

#[test]
fn a_token_is_told_of_what_another_added(rt: HostRuntime) -> Result<(), Fail> {
    let (told, mut seats) = two_of(rt.alloc())?;
    let (Some(mut two), Some(mut one)) = (seats.pop(), seats.pop()) else {
        unreachable!()
    };
    let at_first = told.behind(&mut two);
    let mut next = 5;
    let first = push_next(&rt, &told, &mut one, 7, &mut next);
    let lengths = (one.length(), two.length());
    let shown = told.behind(&mut two);
    let known = two.length();
    next = 6;
    let second = push_next(&rt, &told, &mut two, 7, &mut next);
    let at_last = (told.behind(&mut one), told.behind(&mut two));
    let numbers = close_two(rt.alloc(), told, one, two)?;
    assert!(rt; first && second);
    assert!(rt; at_first == None && lengths == (1, 0));
    assert!(rt; shown == Some(1) && known == 0);
    assert!(rt; at_last == (Some(2), None));
    assert!(rt; numbers.items.as_slice() == [5, 6].as_slice());
    Ok(())
}

fn needs_send<T: Send>() {}

fn needs_sync<T: Sync>() {}

/// Threads share a list, and each of them owns a token.
fn crosses_threads<K: Kept + Drop + Send>() {
    needs_send::<Told<K>>();
    needs_sync::<Told<K>>();
    needs_send::<Seen<K, K::Item>>();
}

fn write_one<R: Wait>(
    rt: &R,
    told: &Told<Numbers>,
    mut seen: Seen<Numbers, u64>,
    number: u64,
) -> Seen<Numbers, u64>
    requires seen { list_of seen ≡ list_id told.now }
    requires owner { (first_value told.now).owner ≡ 7 }
    ensures seen { list_of result ≡ list_id told.now }
{
    let mut next = number;
    push_next(rt, told, &mut seen, 7, &mut next);
    seen
}

#[test]
fn two_threads_add_one_item_each(rt: HostRuntime) -> Result<(), Fail> {
    crosses_threads::<Numbers>();
    let (told, mut seats) = two_of(rt.alloc())?;
    let (Some(two), Some(one)) = (seats.pop(), seats.pop()) else {
        unreachable!()
    };
    let (one, two) = join(
        &rt,
        || -> Seen<Numbers, u64>
            requires { (list_of one ≡ list_id told) × ((first_value told).owner ≡ 7) }
            ensures { list_of result ≡ list_id told }
        { write_one(&rt, &told, one, 1) },
        || -> Seen<Numbers, u64>
            requires { (list_of two ≡ list_id told) × ((first_value told).owner ≡ 7) }
            ensures { list_of result ≡ list_id told }
        { write_one(&rt, &told, two, 2) },
    );
    let numbers = close_two(rt.alloc(), told, one, two)?;
    assert!(rt; matches!(numbers.items.as_slice(), [1, 2] | [2, 1]));
    Ok(())
}
