//! Graphs that are accepted, with their needs. Runs and the evaluation take such a graph, whatever found that it is one.
#![tactic(auto)]

use graph_model::graph::Graph;
use std::marker::Model;

/// A graph that is accepted, with the number of event slots that it needs.
#[derive(Drop)]
pub struct Checked {
    graph: Graph,
    need: u32,
}

impl Model for Checked {
    ghost use Rattle.checked_graph.specs.Checked.{CheckedValue};

    ghost Value = { CheckedValue };

    ghost use Rattle.graph_meaning.specs.Rules.{Accepted};
    ghost use Rattle.graph_meaning.specs.Need.{IsNeed};

    ghost view = { λ a. record { graph = a.graph; need = a.need } };

    ghost invariant = { λ a. record {
      accepted : Accepted a.graph;
      need : IsNeed a.graph a.need;
    } };
}

impl Checked {
    ghost use Rattle.std.specs.Prelude.{◌≡◌};
    ghost use Rattle.graph_meaning.specs.Rules.{Accepted};
    ghost use Rattle.graph_meaning.specs.Need.{IsNeed};

    /// Takes an accepted graph with its need.
    pub fn new(graph: Graph, need: u32) -> Checked
        requires accepted { Accepted graph }
        requires need { IsNeed graph need }
        ensures graph { result.graph ≡ graph }
        ensures need { result.need ≡ need }
    {
        Checked { graph, need }
    }

    /// The graph.
    pub fn graph(&self) -> &Graph
        ensures graph { result.now ≡ self.now.graph }
        ensures accepted { Accepted self.now.graph }
    {
        &self.graph
    }

    /// How many event slots are enough for any run of the graph.
    pub fn need(&self) -> u32
        ensures value { result ≡ self.now.need }
        ensures need { IsNeed self.now.graph result }
    {
        self.need
    }

    /// The graph, given back.
    pub fn into_graph(self) -> Graph
        ensures { result ≡ self.graph }
    {
        self.graph
    }
}
