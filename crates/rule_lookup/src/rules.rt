ghost use Rattle.std.specs.Prelude.{◌≡◌, ◌≤◌, map, length};
ghost use Rattle.std.specs.List.{list_any};
ghost use Rattle.rule_lookup.specs.Rule.{rule_of};
ghost use Rattle.rule_lookup.specs.Replaces.{names_replaced, node_found, found_replaces, found_among};
ghost use Rattle.rule_lookup.specs.Index.{has_some, unless_replaced};

use crate::{Found, Index, lookup};
use arrayvec::ArrayVec;
use rate_types::limits::MOST_DESCRIPTORS;
use rate_types::{Descriptor, Text};

/// What each descriptor of a request finds, in order.
pub type Rules = ArrayVec<Found, MOST_DESCRIPTORS>;

// The rule of each descriptor, without regard to the others.
fn own_rules(index: &Index, domain: &Text, descriptors: &[Descriptor], rules: &mut Rules)
    requires { length descriptors.now ≤ MOST_DESCRIPTORS }
    ensures { rules.new.items ≡ map (rule_of index.now domain.now) descriptors.now }
{
    rules.clear();
    'descriptors: for descriptor in descriptors {
        rules.push(lookup(index, domain, descriptor));
    }
}

// Whether a rule replaces any.
fn replaces_some(index: &Index, found: Found) -> bool
    ensures { result ≡ has_some (names_replaced (node_found index.now found)) }
{
    match index.names_found(found) {
        Some(names) => names.replace_some(),
        None => false,
    }
}

fn found_replaces(index: &Index, one: Found, other: Found) -> bool
    ensures { result ≡ found_replaces index.now one other }
{
    match (index.names_found(one), index.names_found(other)) {
        (Some(one), Some(other)) => one.replace(other),
        _ => false,
    }
}

// Whether one of these rules replaces this one.
fn is_replaced(index: &Index, rules: &[Found], found: Found) -> bool
    ensures { result ≡ list_any (λ r. found_replaces index.now r found) rules.now }
{
    rules.iter().any(|rule| found_replaces(index, *rule, found))
}

// A rule, but none where one of these replaces it.
fn unless_replaced(index: &Index, rules: &[Found], found: Found) -> Found
    ensures { result ≡ unless_replaced index.now rules.now found }
{
    if is_replaced(index, rules, found) {
        Found::NoRule
    } else {
        found
    }
}

fn any_replaces(index: &Index, rules: &[Found]) -> bool
    ensures { result ≡ list_any (λ r. has_some (names_replaced (node_found index.now r))) rules.now }
{
    rules.iter().any(|rule| replaces_some(index, *rule))
}

// Of these rules those that none of them replaces, and none in the place of the others. It stands apart, since its list is zeroed where it
// begins.
#[cold]
#[inline(never)]
fn without_replaced(index: &Index, rules: &[Found]) -> Rules
    requires { length rules.now ≤ MOST_DESCRIPTORS }
    ensures { result.items ≡ map (unless_replaced index.now rules.now) rules.now }
{
    let mut left = ArrayVec::new();
    'rules: for rule in rules {
        left.push(unless_replaced(index, rules, *rule));
    }
    left
}

/// Writes what each descriptor of a request finds: its rule, and none where the rule of another one replaces its own. It takes no
/// memory. The list is lent, so that a caller with many requests makes and moves none for each.
pub fn find_rules_into(index: &Index, domain: &Text, descriptors: &[Descriptor], rules: &mut Rules)
    requires { length descriptors.now ≤ MOST_DESCRIPTORS }
    ensures { rules.new.items ≡ map (found_among index.now domain.now descriptors.now) descriptors.now }
{
    own_rules(index, domain, descriptors, rules);
    if any_replaces(index, rules.as_slice()) {
        *rules = without_replaced(index, rules.as_slice());
    }
}

/// What [`find_rules_into`] writes, in a list of its own.
pub fn find_rules(index: &Index, domain: &Text, descriptors: &[Descriptor]) -> Rules
    requires { length descriptors.now ≤ MOST_DESCRIPTORS }
    ensures { result.items ≡ map (found_among index.now domain.now descriptors.now) descriptors.now }
{
    let mut rules = ArrayVec::new();
    find_rules_into(index, domain, descriptors, &mut rules);
    rules
}
