ghost use Rattle.std.specs.Prelude.{◌≡◌, ◌∷◌, ◌++◌, [], false, OnOk};
ghost use Rattle.std.specs.List.{flat_map};
ghost use Rattle.cypher_check.specs.Asks.{Vertex, Edge, NewVertex, NewEdge, step, after};
ghost use Rattle.cypher_check.specs.Clauses.{name_asks, node_asks, edge_asks, pattern_asks, is_bare, new_node_asks, new_edge_asks, new_pattern_asks};

use crate::scope::Scope;
use crate::walk::reads::map;
use cypher_syntax::{EdgePattern, NodePattern, Pattern};
use graph_value::{Name, NoMemory};

pub(crate) fn vertex_name(scope: &mut Scope, name: &Option<Name>) -> Result<(), NoMemory>
    ensures { OnOk result (scope.new ≡ after scope.old (name_asks Vertex name.now)) }
{
    match name {
        Some(name) => scope.vertex(name),
        None => Ok(()),
    }
}

pub(crate) fn edge_name(scope: &mut Scope, name: &Option<Name>) -> Result<(), NoMemory>
    ensures { OnOk result (scope.new ≡ after scope.old (name_asks Edge name.now)) }
{
    match name {
        Some(name) => scope.edge(name),
        None => Ok(()),
    }
}

pub(crate) fn new_edge_name(scope: &mut Scope, name: &Option<Name>) -> Result<(), NoMemory>
    ensures { OnOk result (scope.new ≡ after scope.old (name_asks NewEdge name.now)) }
{
    match name {
        Some(name) => scope.new_edge(name),
        None => Ok(()),
    }
}

pub(crate) fn new_vertex_name(
    scope: &mut Scope,
    bare: bool,
    name: &Option<Name>,
) -> Result<(), NoMemory>
    ensures { OnOk result (scope.new ≡ after scope.old (name_asks (NewVertex bare) name.now)) }
{
    match name {
        Some(name) => scope.new_vertex(bare, name),
        None => Ok(()),
    }
}

/// A vertex of MATCH.
pub(crate) fn node(scope: &mut Scope, n: &NodePattern) -> Result<(), NoMemory>
    ensures { OnOk result (scope.new ≡ after scope.old (node_asks n.now)) }
{
    vertex_name(scope, &n.name)?;
    map(scope, &n.map)
}

/// An edge of MATCH.
pub(crate) fn edge(scope: &mut Scope, e: &EdgePattern) -> Result<(), NoMemory>
    ensures { OnOk result (scope.new ≡ after scope.old (edge_asks e.now)) }
{
    edge_name(scope, &e.name)?;
    map(scope, &e.map)
}

pub(crate) fn steps(scope: &mut Scope, steps: &[(EdgePattern, NodePattern)]) -> Result<(), NoMemory>
    ensures { OnOk result (scope.new ≡ after scope.old (flat_map (λ s. edge_asks s.0 ++ node_asks s.1) steps.now)) }
{
    for (e, n) in steps {
        edge(scope, e)?;
        node(scope, n)?;
    }
    Ok(())
}

/// A pattern of MATCH.
pub(crate) fn pattern(scope: &mut Scope, p: &Pattern) -> Result<(), NoMemory>
    ensures { OnOk result (scope.new ≡ after scope.old (pattern_asks p.now)) }
{
    node(scope, &p.first)?;
    steps(scope, p.steps.as_slice())
}

pub(crate) fn patterns(scope: &mut Scope, ps: &[Pattern]) -> Result<(), NoMemory>
    ensures { OnOk result (scope.new ≡ after scope.old (flat_map pattern_asks ps.now)) }
{
    for p in ps {
        pattern(scope, p)?;
    }
    Ok(())
}

/// Whether a vertex of CREATE may be one that is there: nothing is asked of it, and it doesn't stand alone.
fn is_bare(alone: bool, n: &NodePattern) -> bool
    ensures { result ≡ is_bare alone n.now }
{
    !alone && n.labels.is_empty() && n.map.is_none()
}

/// A vertex of CREATE.
pub(crate) fn new_node(scope: &mut Scope, alone: bool, n: &NodePattern) -> Result<(), NoMemory>
    ensures { OnOk result (scope.new ≡ after scope.old (new_node_asks alone n.now)) }
{
    new_vertex_name(scope, is_bare(alone, n), &n.name)?;
    map(scope, &n.map)
}

/// An edge of CREATE.
pub(crate) fn new_edge(scope: &mut Scope, e: &EdgePattern) -> Result<(), NoMemory>
    ensures { OnOk result (scope.new ≡ after scope.old (new_edge_asks e.now)) }
{
    new_edge_name(scope, &e.name)?;
    map(scope, &e.map)
}

pub(crate) fn new_steps(
    scope: &mut Scope,
    steps: &[(EdgePattern, NodePattern)],
) -> Result<(), NoMemory>
    ensures { OnOk result (scope.new ≡ after scope.old (flat_map (λ s. new_edge_asks s.0 ++ new_node_asks false s.1) steps.now)) }
{
    for (e, n) in steps {
        new_edge(scope, e)?;
        new_node(scope, false, n)?;
    }
    Ok(())
}

/// A pattern of CREATE.
pub(crate) fn new_pattern(scope: &mut Scope, p: &Pattern) -> Result<(), NoMemory>
    ensures { OnOk result (scope.new ≡ after scope.old (new_pattern_asks p.now)) }
{
    new_node(scope, p.steps.is_empty(), &p.first)?;
    new_steps(scope, p.steps.as_slice())
}

pub(crate) fn new_patterns(scope: &mut Scope, ps: &[Pattern]) -> Result<(), NoMemory>
    ensures { OnOk result (scope.new ≡ after scope.old (flat_map new_pattern_asks ps.now)) }
{
    for p in ps {
        new_pattern(scope, p)?;
    }
    Ok(())
}
