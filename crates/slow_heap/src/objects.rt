//! The objects of a graph, as the slow heap lists them.
ghost use Rattle.std.specs.Prelude.{◌≡◌, ◌<◌, List, replicate, length, slice_get, Some, None, IfOk, OnOk, OnErr, IfSome, IfNone};
ghost use Rattle.std.specs.FinMap.{get, insert, len};
ghost use Rattle.graph_model.specs.declared.val.Val.{Val};
ghost use Rattle.graph_model.specs.declared.val.Val.TheVariants.{Null};
ghost use Rattle.graph_model.specs.Graph.{fields, with_field, new_graph};

use graph_model::{Id, ROOT, Val};
use std::alloc::{AllocError, Global};
use std::marker::Model;

/// How many fields the root has.
const ROOT_FIELDS: usize = 4;

/// An object: its name, and its fields in order.
#[derive(Drop)]
pub struct Object {
    pub id: Id,
    pub fields: Vec<Val>,
}

/// The objects of a graph, each once. A clause sees them as the list of their names and fields.
#[derive(Drop)]
pub struct Objects {
    alloc: Global,
    objects: Vec<Object>,
}

impl Model for Objects {
    ghost use Rattle.std.specs.Prelude.{List};
    ghost use Rattle.graph_model.specs.declared.id.Id.{Id};
    ghost use Rattle.graph_model.specs.declared.val.Val.{Val};
    ghost use Rattle.slow_heap.specs.Objects.{rows_of, AreApart};

    ghost Value = { List (Id × List Val) };

    ghost view = { λ objects. rows_of objects.objects.items };

    ghost invariant = { λ objects. AreApart (rows_of objects.objects.items) };
}

impl Objects {
    ghost use Rattle.slow_heap.specs.Objects.{graph_of};

    /// The root alone, with four null fields. It fails only when out of memory.
    pub fn new(alloc: Global) -> Result<Objects, AllocError>
        ensures { IfOk result (λ objects. graph_of objects ≡ new_graph) }
    {
        let fields = vec![in alloc; Val::Null; ROOT_FIELDS]?;
        let mut objects = Vec::new(alloc);
        objects.push(Object { id: ROOT, fields })?;
        Ok(Objects { alloc, objects })
    }

    /// The same objects once more. It fails only when out of memory.
    pub fn copy(&self) -> Result<Objects, AllocError>
        ensures { IfOk result (λ objects. objects ≡ self.now) }
    {
        let mut objects = Vec::new(self.alloc);
        for object in &self.objects {
            let fields = Vec::from_slice(self.alloc, &object.fields)?;
            objects.push(Object {
                id: object.id,
                fields,
            })?;
        }
        Ok(Objects {
            alloc: self.alloc,
            objects,
        })
    }

    /// How many objects there are.
    pub fn len(&self) -> usize
        ensures { result ≡ len (graph_of self.now) }
    {
        self.objects.len()
    }

    /// Where the object of that name stands in the list.
    fn place_of(&self, id: Id) -> Option<usize>
        ensures some { IfSome result (λ i. (vs : List Val) × (slice_get self.now i ≡ Some (id, vs))) }
        ensures none { IfNone result (get (graph_of self.now) id ≡ None) }
    {
        for (i, object) in self.objects.iter().enumerate() {
            if object.id == id {
                return Some(i);
            }
        }
        None
    }

    /// The fields of the object of that name; none where there is no such object.
    pub fn fields(&self, id: Id) -> &[Val]
        ensures { result.now ≡ fields (graph_of self.now) id }
    {
        match self.place_of(id) {
            None => &[],
            Some(i) => &self.objects[i].fields,
        }
    }

    /// An object of that name with `len` null fields is added, in place of one that has the name. It fails only when out of
    /// memory, and then nothing changes.
    pub fn insert(&mut self, id: Id, len: usize) -> Result<(), AllocError>
        ensures ok { OnOk result (graph_of self.new ≡ insert (graph_of self.old) id (replicate len Null)) }
        ensures err { OnErr result (self.new ≡ self.old) }
    {
        let fields = vec![in self.alloc; Val::Null; len]?;
        match self.place_of(id) {
            None => self.objects.push(Object { id, fields })?,
            Some(i) => self.objects[i].fields = fields,
        }
        Ok(())
    }

    /// Field `i` of the object of that name has this value. Nothing changes if the object has no such field; where there is no such
    /// object, it is added with no fields. It fails only when out of memory.
    pub fn set(&mut self, id: Id, i: usize, value: Val) -> Result<(), AllocError>
        ensures { OnOk result (graph_of self.new ≡ with_field (graph_of self.old) id i value) }
    {
        let Some(place) = self.place_of(id) else {
            return self.insert(id, 0);
        };
        let object = &mut self.objects[place];
        if i >= object.fields.len() {
            return Ok(());
        }
        object.fields[i] = value;
        Ok(())
    }
}
