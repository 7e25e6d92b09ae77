ghost use Rattle.std.specs.Prelude.{◌≡◌, ◌≢◌, [], map, None, IfOk, IfSome};
ghost use Rattle.descriptor_tree.specs.Trees.{node_view, branches_of};
ghost use Rattle.descriptor_tree.specs.Config.{IsWellFormedBranch, AreWellFormed};

use descriptor_tree::{Config, Forest, Node, Policy, Texts, Tree};
use rate_types::{Descriptor, Entries, Entry, OwnLimit, RuleId, Text, Unit};
use rule_lookup::{Found, Index, find_rules, lookup};
use std::alloc::Global;
use std::sync::Arc;
use std::test::Fail;

// A node with so many hits a minute, for one value or wildcard or for each value, above these.
fn node(
    alloc: Global,
    key: &str,
    value: Option<&str>,
    limit: u32,
    below: Vec<Node>,
) -> Result<Node, Fail>
    requires value { IfSome value (λ v. v.now ≢ []) }
    requires below { AreWellFormed (branches_of (map node_view below.items)) }
    ensures { IfOk result (λ n. IsWellFormedBranch (node_view n)) }
{
    let value = match value {
        Some(value) => Some(Text::new(alloc, value)?),
        None => None,
    };
    Ok(Node {
        key: Text::new(alloc, key)?,
        value,
        policy: Some(Policy::Limited {
            limit,
            unit: Unit::Minute,
        }),
        name: None,
        replaces: Texts::new(alloc),
        shadow: false,
        below: Forest::of(below),
    })
}

// Domain `d`: key `n` with `u*` (rule 0), `us*` (1) and without a value (2); key `m` (3), below which `n` with `a` (4).
fn index(alloc: Global) -> Result<Index, Fail> {
    let mut below = Vec::new(alloc);
    below.push(node(alloc, "n", Some("a"), 5, Vec::new(alloc))?)?;
    let mut nodes = Vec::new(alloc);
    nodes.push(node(alloc, "n", Some("u*"), 1, Vec::new(alloc))?)?;
    nodes.push(node(alloc, "n", Some("us*"), 2, Vec::new(alloc))?)?;
    nodes.push(node(alloc, "n", None, 3, Vec::new(alloc))?)?;
    nodes.push(node(alloc, "m", None, 4, below)?)?;
    let mut trees = Vec::new(alloc);
    trees.push(Tree {
        domain: Text::new(alloc, "d")?,
        forest: Forest::of(nodes),
    })?;
    match Config::build(alloc, trees) {
        Ok(config) => Ok(Index::make(alloc, Arc::new(alloc, config)?)?),
        Err(_) => Err(Fail::new("refused")),
    }
}

// A descriptor of these entries.
fn descriptor(
    alloc: Global,
    entries: &[(&str, &str)],
    own: Option<OwnLimit>,
) -> Result<Descriptor, Fail> {
    let mut items = Vec::new(alloc);
    for (key, value) in entries {
        items.push(Entry {
            key: Text::new(alloc, key)?,
            value: Text::new(alloc, value)?,
        })?;
    }
    Ok(Descriptor {
        entries: Entries::build(items)?,
        own,
        hits: None,
    })
}

fn limited(limit: u32, rule: u32) -> Found {
    Found::Limited {
        limit,
        unit: Unit::Minute,
        shadow: false,
        rule: Some(RuleId(rule)),
    }
}

// The rule of a descriptor of these entries.
fn rule_at(alloc: Global, index: &Index, entries: &[(&str, &str)]) -> Result<Found, Fail> {
    let domain = Text::new(alloc, "d")?;
    let descriptor = descriptor(alloc, entries, None)?;
    Ok(lookup(index, &domain, &descriptor))
}

#[test]
fn a_rule_is_that_of_the_last_entrys_node(rt: HostRuntime) -> Result<(), Fail> {
    const LIMITED: &[(&[(&str, &str)], u32, u32)] = &[
        (&[("n", "user")], 1, 0),
        (&[("n", "us*")], 2, 1),
        (&[("n", "x")], 3, 2),
        (&[("m", "x")], 4, 3),
        (&[("m", "x"), ("n", "a")], 5, 4),
    ];
    const FREE: &[&[(&str, &str)]] = &[
        &[("m", "x"), ("n", "b")],
        &[("n", "user"), ("n", "a")],
        &[("k", "x")],
    ];
    let index = index(rt.alloc())?;
    for &(entries, limit, rule) in LIMITED {
        let found = rule_at(rt.alloc(), &index, entries)?;
        assert_eq!(rt; found, limited(limit, rule));
    }
    for &entries in FREE {
        let found = rule_at(rt.alloc(), &index, entries)?;
        assert_eq!(rt; found, Found::NoRule);
    }
    Ok(())
}

// A node for each value of a key: with a name, or replacing the rule of this name.
fn rule(
    alloc: Global,
    key: &str,
    policy: Policy,
    name: Option<&str>,
    replaced: Option<&str>,
) -> Result<Node, Fail>
    requires name { IfSome name (λ n. n.now ≢ []) }
    requires replaced { IfSome replaced (λ n. (n.now ≢ []) × (name ≡ None)) }
    ensures { IfOk result (λ n. IsWellFormedBranch (node_view n)) }
{
    let name = match name {
        Some(name) => Some(Text::new(alloc, name)?),
        None => None,
    };
    let mut replaces = Vec::new(alloc);
    if let Some(replaced) = replaced {
        replaces.push(Text::new(alloc, replaced)?)?;
    }
    Ok(Node {
        key: Text::new(alloc, key)?,
        value: None,
        policy: Some(policy),
        name,
        replaces: Texts::of(replaces),
        shadow: true,
        below: Forest::of(Vec::new(alloc)),
    })
}

// Domain `d`: key `a` has the rule `base` (0), and the rules of `b` (1) and of `u` (2) replace it.
fn replacing(alloc: Global) -> Result<Index, Fail> {
    let limit = Policy::Limited {
        limit: 9,
        unit: Unit::Day,
    };
    let mut nodes = Vec::new(alloc);
    nodes.push(rule(alloc, "a", limit, Some("base"), None)?)?;
    nodes.push(rule(alloc, "b", limit, None, Some("base"))?)?;
    nodes.push(rule(alloc, "u", Policy::Unlimited, None, Some("base"))?)?;
    let mut trees = Vec::new(alloc);
    trees.push(Tree {
        domain: Text::new(alloc, "d")?,
        forest: Forest::of(nodes),
    })?;
    match Config::build(alloc, trees) {
        Ok(config) => Ok(Index::make(alloc, Arc::new(alloc, config)?)?),
        Err(_) => Err(Fail::new("refused")),
    }
}

// The rule of each of two descriptors of a request, by the one key of each; the second has its own limit.
fn both_rules(
    alloc: Global,
    index: &Index,
    one: &str,
    other: &str,
    own: Option<OwnLimit>,
) -> Result<String, Fail> {
    let domain = Text::new(alloc, "d")?;
    let mut descriptors = Vec::new(alloc);
    descriptors.push(descriptor(alloc, &[(one, "x")], None)?)?;
    descriptors.push(descriptor(alloc, &[(other, "x")], own)?)?;
    if descriptors.len() > 32 {
        return Err(Fail::new("two descriptors"));
    }
    let found = find_rules(index, &domain, &descriptors);
    Ok(format!(in alloc; "{:?}", found.as_slice())?)
}

#[test]
fn a_rule_replaces_those_that_it_names(rt: HostRuntime) -> Result<(), Fail> {
    const ROWS: &[(&str, &str, &str)] = &[
        (
            "a",
            "b",
            "[NoRule, Limited { limit: 9, unit: Day, shadow: true, rule: Some(RuleId(1)) }]",
        ),
        ("u", "a", "[Unlimited { rule: RuleId(2) }, NoRule]"),
        (
            "b",
            "u",
            "[Limited { limit: 9, unit: Day, shadow: true, rule: Some(RuleId(1)) }, Unlimited { rule: RuleId(2) }]",
        ),
        (
            "a",
            "a",
            "[Limited { limit: 9, unit: Day, shadow: true, rule: Some(RuleId(0)) }, Limited { limit: 9, unit: Day, shadow: true, rule: Some(RuleId(0)) }]",
        ),
    ];
    let index = replacing(rt.alloc())?;
    for &(one, other, want) in ROWS {
        let found = both_rules(rt.alloc(), &index, one, other, None)?;
        assert_eq!(rt; found.as_str(), want, "{one} and {other}");
    }
    Ok(())
}

#[test]
fn a_limit_of_its_own_replaces_no_rule(rt: HostRuntime) -> Result<(), Fail> {
    let own = OwnLimit {
        limit: 1,
        unit: Unit::Hour,
    };
    let index = replacing(rt.alloc())?;
    let found = both_rules(rt.alloc(), &index, "a", "b", Some(own))?;
    let want =
        "[Limited { limit: 9, unit: Day, shadow: true, rule: Some(RuleId(0)) }, Limited { limit: 1, unit: Hour, shadow: false, rule: None }]";
    assert_eq!(rt; found.as_str(), want);
    Ok(())
}

#[test]
fn an_index_tells_which_rule_replaces_which(rt: HostRuntime) -> Result<(), Fail> {
    let index = replacing(rt.alloc())?;
    assert!(rt; index.replaces(RuleId(1), RuleId(0)));
    assert!(rt; !index.replaces(RuleId(0), RuleId(1)));
    assert!(rt; !index.replaces(RuleId(1), RuleId(9)));
    Ok(())
}
