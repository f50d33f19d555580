//! A graph of objects in memory.
ghost use Rattle.std.specs.Prelude.{◌≡◌, replicate, slice_set, IfOk, OnOk, OnErr};
ghost use Rattle.std.specs.Option.{option_map};
ghost use Rattle.std.specs.FinMap.{empty, get, insert, keys, len};
ghost use Rattle.graph_model.specs.declared.val.Val.TheVariants.{Null};
ghost use Rattle.graph_model.specs.Graph.{fields, with_field, new_graph};

use graph_model::{Id, ROOT, Val};
use std::alloc::{AllocError, Global};
use std::collections::BTreeMap;
use std::marker::Model;

/// How many fields the root of a new heap has.
const ROOT_FIELDS: usize = 4;

/// The fields of each object, by its name. Clauses see the graph of the plain model. Finding an object takes time logarithmic in how many there
/// are.
#[derive(Debug, Drop)]
pub struct PlainGraph {
    alloc: Global,
    objects: BTreeMap<Id, Vec<Val>>,
}

impl Model for PlainGraph {
    ghost use Rattle.graph_model.specs.Graph.{Graph};
    ghost use Rattle.sealed_graph.specs.GraphCode.{graph_code};
    ghost use Rattle.sealed_graph.specs.Objects.{graph_of};

    ghost Value = { Graph };

    ghost coded = { graph_code };

    ghost view = { λ graph. graph_of graph.objects.entries };
}

impl PlainGraph {
    /// No objects. Does not allocate.
    pub fn empty(alloc: Global) -> PlainGraph
        ensures { result ≡ empty }
    {
        PlainGraph {
            alloc,
            objects: BTreeMap::new(alloc),
        }
    }

    /// The graph of a new heap: the root alone, with four null fields.
    pub fn new_heap(alloc: Global) -> Result<PlainGraph, AllocError>
        ensures { IfOk result (λ graph. graph ≡ new_graph) }
    {
        let mut graph = PlainGraph::empty(alloc);
        graph.insert_null(ROOT, ROOT_FIELDS)?;
        Ok(graph)
    }

    /// How many objects there are.
    pub fn len(&self) -> usize
        ensures { result ≡ len self.now }
    {
        self.objects.len()
    }

    /// The names of the objects, in order.
    pub fn ids(&self) -> Result<Vec<Id>, AllocError>
        ensures { IfOk result (λ ids. ids.items ≡ keys self.now) }
    {
        self.objects.keys().copied().collect(self.alloc)
    }

    /// The fields of the object of that name, if there is one.
    pub fn get(&self, id: Id) -> Option<&[Val]>
        ensures { option_map (λ values. values.now) result ≡ get self.now id }
    {
        match self.objects.get(&id) {
            Some(values) => Some(values),
            None => None,
        }
    }

    /// The fields of the object of that name; none where there is no such object.
    pub fn fields(&self, id: Id) -> &[Val]
        ensures { result.now ≡ fields self.now id }
    {
        match self.get(id) {
            Some(values) => values,
            None => &[],
        }
    }

    /// An object of that name with these fields is added, in place of one that has the name. An error changes nothing.
    pub fn insert(&mut self, id: Id, values: Vec<Val>) -> Result<(), AllocError>
        ensures ok { OnOk result (self.new ≡ insert self.old id values.items) }
        ensures err { OnErr result (self.new ≡ self.old) }
    {
        self.objects.insert(id, values)?;
        Ok(())
    }

    /// The same for an object of that many null fields.
    pub(crate) fn insert_null(&mut self, id: Id, len: usize) -> Result<(), AllocError>
        ensures ok { OnOk result (self.new ≡ insert self.old id (replicate len Null)) }
        ensures err { OnErr result (self.new ≡ self.old) }
    {
        let values = vec![in self.alloc; Val::Null; len]?;
        self.insert(id, values)
    }

    /// Field `i` of the object of that name has this value. Nothing changes if the object has no such field; where there is no such
    /// object, it is added with no fields, as the plain model has it. An error changes nothing.
    pub(crate) fn set(&mut self, id: Id, i: usize, value: Val) -> Result<(), AllocError>
        ensures ok { OnOk result (self.new ≡ with_field self.old id i value) }
        ensures err { OnErr result (self.new ≡ self.old) }
    {
        match self.objects.get_mut(&id) {
            None => self.insert_null(id, 0),
            Some(values) => {
                set_value(values, i, value);
                Ok(())
            }
        }
    }

    /// The same graph once more.
    pub fn copied(&self) -> Result<PlainGraph, AllocError>
        ensures { IfOk result (λ graph. graph ≡ self.now) }
    {
        Ok(PlainGraph {
            alloc: self.alloc,
            objects: self.objects.clone()?,
        })
    }
}

// Item `i` is this value from now on. Nothing changes where there is no such item.
fn set_value(values: &mut Vec<Val>, i: usize, value: Val)
    ensures { values.new.items ≡ slice_set values.old.items i value }
{
    if i < values.len() {
        values[i] = value;
    }
}
