//! Whether lists of vertices and edges are a graph.
ghost use Rattle.std.specs.Prelude.{◌≡◌, IsTrue, IfOk, IfErr, None};
ghost use Rattle.std.specs.FinMap.{find, is_sorted};
ghost use Rattle.std.specs.List.{list_all};
ghost use Rattle.std.specs.Option.{option_copied};
ghost use Rattle.graph_record.specs.Graph.{vertex_cmp, edge_cmp};
ghost use Rattle.graph_record.specs.Place.{IsAt, IsGapFor, key_of};
ghost use Rattle.query_bench.specs.Coherence as spec;

use graph_reader::Graph;
use graph_record::{EdgeRecord, VertexRecord};
use graph_value::{EdgeId, VertexId};

type Vertex = (VertexId, VertexRecord);

type Edge = (EdgeId, EdgeRecord);

/// Whether a number is above another one, or above none.
fn is_above(after: Option<u64>, n: u64) -> bool
    ensures { result ≡ spec.is_above after n }
{
    match after {
        None => true,
        Some(after) => after < n,
    }
}

fn vertices_ascend(vertices: &[Vertex]) -> bool
    ensures { result ≡ spec.vertices_ascend None vertices.now }
{
    let mut last = None;
    for (v, _) in vertices {
        if !is_above(last, v.0) {
            return false;
        }
        last = Some(v.0);
    }
    true
}

fn edges_ascend(edges: &[Edge]) -> bool
    ensures { result ≡ spec.edges_ascend None edges.now }
{
    let mut last = None;
    for (e, _) in edges {
        if !is_above(last, e.0) {
            return false;
        }
        last = Some(e.0);
    }
    true
}

/// Where a vertex stands, or where it would go.
fn vertex_place(vertices: &[Vertex], v: VertexId) -> Result<usize, usize>
    requires { IsTrue (is_sorted vertex_cmp vertices.now) }
    ensures found { IfOk result (IsAt vertex_cmp key_of v vertices.now) }
    ensures absent { IfErr result (IsGapFor vertex_cmp key_of v vertices.now) }
{
    vertices.binary_search_by(|(known, _)| known.cmp(&v))
}

fn edge_place(edges: &[Edge], e: EdgeId) -> Result<usize, usize>
    requires { IsTrue (is_sorted edge_cmp edges.now) }
    ensures found { IfOk result (IsAt edge_cmp key_of e edges.now) }
    ensures absent { IfErr result (IsGapFor edge_cmp key_of e edges.now) }
{
    edges.binary_search_by(|(known, _)| known.cmp(&e))
}

fn vertex_in(vertices: &[Vertex], v: VertexId) -> Option<&VertexRecord>
    requires { IsTrue (is_sorted vertex_cmp vertices.now) }
    ensures { option_copied result ≡ find vertex_cmp v vertices.now }
{
    match vertex_place(vertices, v) {
        Ok(at) => Some(&vertices[at].1),
        Err(_) => None,
    }
}

fn edge_in(edges: &[Edge], e: EdgeId) -> Option<&EdgeRecord>
    requires { IsTrue (is_sorted edge_cmp edges.now) }
    ensures { option_copied result ≡ find edge_cmp e edges.now }
{
    match edge_place(edges, e) {
        Ok(at) => Some(&edges[at].1),
        Err(_) => None,
    }
}

/// Whether a vertex lists an edge that leaves it.
fn has_out(vertices: &[Vertex], v: VertexId, e: EdgeId) -> bool
    requires { IsTrue (is_sorted vertex_cmp vertices.now) }
    ensures { result ≡ spec.has_out (find vertex_cmp v vertices.now) e }
{
    match vertex_in(vertices, v) {
        Some(record) => record.outs.contains(e),
        None => false,
    }
}

/// Whether a vertex lists an edge that comes to it.
fn has_in(vertices: &[Vertex], v: VertexId, e: EdgeId) -> bool
    requires { IsTrue (is_sorted vertex_cmp vertices.now) }
    ensures { result ≡ spec.has_in (find vertex_cmp v vertices.now) e }
{
    match vertex_in(vertices, v) {
        Some(record) => record.ins.contains(e),
        None => false,
    }
}

fn comes_from(edges: &[Edge], e: EdgeId, v: VertexId) -> bool
    requires { IsTrue (is_sorted edge_cmp edges.now) }
    ensures { result ≡ spec.comes_from v (find edge_cmp e edges.now) }
{
    match edge_in(edges, e) {
        Some(record) => record.from.0 == v.0,
        None => false,
    }
}

fn goes_to(edges: &[Edge], e: EdgeId, v: VertexId) -> bool
    requires { IsTrue (is_sorted edge_cmp edges.now) }
    ensures { result ≡ spec.goes_to v (find edge_cmp e edges.now) }
{
    match edge_in(edges, e) {
        Some(record) => record.to.0 == v.0,
        None => false,
    }
}

/// Whether the vertex that each edge comes from lists it.
fn starts_list(vertices: &[Vertex], edges: &[Edge]) -> bool
    requires { IsTrue (is_sorted vertex_cmp vertices.now) }
    ensures { result
        ≡ list_all (spec.end_lists (λ r. r.outs) (λ r. r.from) vertices.now) edges.now }
{
    edges
        .iter()
        .all(|(e, record)| has_out(vertices, record.from, *e))
}

/// Whether the vertex that each edge goes to lists it.
fn ends_list(vertices: &[Vertex], edges: &[Edge]) -> bool
    requires { IsTrue (is_sorted vertex_cmp vertices.now) }
    ensures { result
        ≡ list_all (spec.end_lists (λ r. r.ins) (λ r. r.to) vertices.now) edges.now }
{
    edges
        .iter()
        .all(|(e, record)| has_in(vertices, record.to, *e))
}

fn all_come_from(edges: &[Edge], ids: &[EdgeId], v: VertexId) -> bool
    requires { IsTrue (is_sorted edge_cmp edges.now) }
    ensures { result ≡ spec.all_named (λ r. r.from) edges.now ids.now v }
{
    ids.iter().all(|e| comes_from(edges, *e, v))
}

fn all_go_to(edges: &[Edge], ids: &[EdgeId], v: VertexId) -> bool
    requires { IsTrue (is_sorted edge_cmp edges.now) }
    ensures { result ≡ spec.all_named (λ r. r.to) edges.now ids.now v }
{
    ids.iter().all(|e| goes_to(edges, *e, v))
}

/// Whether the edges that leave each vertex come from it.
fn outs_come(vertices: &[Vertex], edges: &[Edge]) -> bool
    requires { IsTrue (is_sorted edge_cmp edges.now) }
    ensures { result
        ≡ list_all (spec.lists_its_own (λ r. r.outs) (λ r. r.from) edges.now) vertices.now }
{
    vertices.iter().all(|(v, record)| all_come_from(edges, record.outs.as_slice(), *v))
}

/// Whether the edges that come to each vertex go to it.
fn ins_go(vertices: &[Vertex], edges: &[Edge]) -> bool
    requires { IsTrue (is_sorted edge_cmp edges.now) }
    ensures { result
        ≡ list_all (spec.lists_its_own (λ r. r.ins) (λ r. r.to) edges.now) vertices.now }
{
    vertices
        .iter()
        .all(|(v, record)| all_go_to(edges, record.ins.as_slice(), *v))
}

/// Whether vertices and edges ascend and tell the same.
#[tactic(auto, using(crate::proofs::Coherent::vertices_sorted, crate::proofs::Coherent::edges_sorted))]
fn are_coherent(vertices: &[Vertex], edges: &[Edge]) -> bool
    ensures { result ≡ spec.are_coherent vertices.now edges.now }
{
    if !vertices_ascend(vertices) || !edges_ascend(edges) {
        return false;
    }
    starts_list(vertices, edges)
        && outs_come(vertices, edges)
        && ends_list(vertices, edges)
        && ins_go(vertices, edges)
}

/// The graph of these vertices and edges, if they ascend and tell the same.
#[tactic(auto, using(crate::proofs::Coherent::coherent))]
pub fn graph_of(
    vertices: Vec<(VertexId, VertexRecord)>,
    edges: Vec<(EdgeId, EdgeRecord)>,
) -> Option<Graph>
    ensures { result ≡ spec.graph_of vertices.items edges.items }
{
    if are_coherent(vertices.as_slice(), edges.as_slice()) {
        Some(Graph::of(vertices, edges))
    } else {
        None
    }
}
