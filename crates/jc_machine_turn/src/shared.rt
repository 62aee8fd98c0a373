//! What all threads share.
ghost use Rattle.std.specs.Prelude.{◌≡◌, ◌↔◌, ◌+◌, ◌<◌, ◌^◌, [], ◌∷◌, ◌++◌, true, pos, length, map, take, drop, replicate, nat_le, option_map, slice_get, slice_set, IsTrue, IsSome, IfSome, IfOk, IfNone, OnSome};
ghost use Rattle.std.specs.Bool.{OnTrue, OnFalse};
ghost use Rattle.jc_bytes.specs.Descriptor.{Long};
ghost use Rattle.jc_machine_model.specs.Heap.{heap_words, has_room, array, throwable};
ghost use Rattle.jc_machine_model.specs.Arrays.{element_value};
ghost use Rattle.jc_machine_model.specs.Statics.{static_at, with_static};
ghost use Rattle.jc_machine_model.specs.Objects.{most_printed};
ghost use Rattle.jc_machine_code.specs.declared.prepared.PreparedClass.{PreparedClass};
ghost use Rattle.jc_machine_memory.specs.Values.{value_of};
ghost use Rattle.jc_machine_memory.specs.Heaps.{element_type, TellsOf, HasFewElements, object_at, HasElement, HasIntElement, element_in, with_element_at};
ghost use Rattle.jc_machine_turn.specs.Contents.{first_shared};

use crate::first::{first_statics, set_first_statics};
use jc_bytes::Memory;
use jc_machine_code::PreparedClass;
use jc_machine_memory::{Element, Heap, HeapObject, Value};
use jc_programs::Thrown;
use std::alloc::Global;
use std::marker::Model;

/// The most bytes that a case prints.
const MOST_PRINTED: usize = 1_048_576;

/// What all threads share, in memory that is taken once: static fields, arrays and throwables, the output, and whether a
/// throwable was raised.
#[derive(Drop)]
pub struct Shared {
    statics: Vec<Vec<Value>>,
    heap: Heap,
    // What was printed, and behind it room for the rest.
    output: Vec<u8>,
    printed: usize,
    raised: bool,
}

impl Model for Shared {
    ghost use Rattle.jc_machine_turn.specs.Contents.{SharedSeen};

    ghost Value = { SharedSeen };

    ghost use Rattle.std.specs.Coded.{codes};
    ghost use Rattle.jc_machine_memory.specs.Codes.{field_type_code};

    ghost coded = { Prim.hlevel (codes, field_type_code) };

    ghost use Rattle.jc_machine_turn.specs.Contents.{shared_of, IsShared};

    ghost view = { shared_of };

    ghost invariant = { IsShared };
}

/// Puts a value at a place of a list. Nothing changes where it has no such place.
fn set_value(values: &mut [Value], place: usize, value: Value)
    ensures { values.new ≡ slice_set values.old place value }
{
    if place < values.len() {
        values[place] = value;
    }
}

/// Writes a text and a line feed over as many bytes, from one on.
fn put_line(output: &mut [u8], at: usize, text: &[u8])
    requires { at + length text.now < length output.old }
    ensures { output.new ≡ take at output.old ++ ((text.now ++ 10 ∷ []) ++ drop (at + (length text.now + 1)) output.old) }
{
    let end = at + text.len();
    output[at..end].copy_from_slice(text);
    output[end] = b'\n';
}

impl Shared {
    /// The first values of the static fields of these classes, no object and no output. No later call takes memory.
    ///
    /// # Errors
    ///
    /// `Memory` where memory was refused.
    pub fn new(alloc: Global, classes: &[PreparedClass]) -> Result<Shared, Memory>
        ensures { IfOk result (λ shared. shared.content ≡ first_shared classes.now) }
    {
        Ok(Shared {
            statics: first_statics(alloc, classes)?,
            heap: Heap::new(alloc)?,
            output: vec![in alloc; 0; MOST_PRINTED]?,
            printed: 0,
            raised: false,
        })
    }

    /// The same again, of classes with as many static fields.
    pub fn reset(&mut self, classes: &[PreparedClass])
        requires { map length self.old.content.statics ≡ map (λ (c : PreparedClass). length c.statics) classes.now }
        ensures { self.new ≡ record self.old { content = first_shared classes.now } }
    {
        set_first_statics(self.statics.as_mut_slice(), classes);
        self.heap.reset();
        self.printed = 0;
        self.raised = false;
    }

    /// The value of the static field with a number, of the class with a number, if there is such a field.
    pub fn static_value(&self, class: u32, field: u32) -> Option<Value>
        ensures { option_map value_of result ≡ static_at self.now.content.statics (record { class = class; field = field }) }
    {
        let values = self.statics.get(class as usize)?;
        values.get(field as usize).copied()
    }

    /// Puts a value into the static field with a number, of the class with a number. Nothing changes where there is no
    /// such field.
    pub fn set_static(&mut self, class: u32, field: u32, value: Value)
        ensures { self.new ≡ record self.old {
          content = record self.old.content {
            statics = with_static self.old.content.statics (record { class = class; field = field }) (value_of value);
          };
        } }
    {
        if (class as usize) < self.statics.len() {
            set_value(
                self.statics[class as usize].as_mut_slice(),
                field as usize,
                value,
            );
        }
    }

    /// The object of the heap with a number, if there is one.
    pub fn object(&self, number: u32) -> Option<HeapObject>
        ensures told { TellsOf result (slice_get self.now.content.heap number) }
        ensures few { IfSome result HasFewElements }
    {
        self.heap.object(number)
    }

    /// How many words the objects take that were made before the one with a number, or all, where there is none.
    pub fn words_before(&self, number: u32) -> u32
        ensures { result ≡ heap_words (take number self.now.content.heap) }
    {
        self.heap.words_before(number)
    }

    /// Element `i` of the array with a number.
    pub fn element(&self, number: u32, element: Element, i: u32) -> Value
        requires { HasElement (object_at self.now.content.heap number) (element_type element) i }
        ensures { value_of result ≡ element_value (element_type element) (element_in (object_at self.now.content.heap number) i) }
    {
        self.heap.element(number, element, i)
    }

    /// Makes a number element `i` of an array of another type than long.
    pub fn set_int(&mut self, number: u32, i: u32, value: i32)
        requires { HasIntElement (object_at self.old.content.heap number) i }
        ensures { self.new ≡ record self.old { content = record self.old.content { heap = with_element_at self.old.content.heap number i value } } }
    {
        self.heap.set_int(number, i, value);
    }

    /// Makes a number element `i` of an array of longs.
    pub fn set_long(&mut self, number: u32, i: u32, value: i64)
        requires { HasElement (object_at self.old.content.heap number) Long i }
        ensures { self.new ≡ record self.old { content = record self.old.content { heap = with_element_at self.old.content.heap number i value } } }
    {
        self.heap.set_long(number, i, value);
    }

    /// A new array of so many elements, which are 0, behind the other objects, and its number. `None` exactly where no
    /// room is left for it, and then nothing changed.
    pub fn make_array(&mut self, element: Element, count: u32) -> Option<u32>
        requires { count < 2 ^ 31 }
        ensures room { IsSome result ↔ IsTrue (has_room self.old.content.heap (count + 1)) }
        ensures made { OnSome result (self.new.content
            ≡ record self.old.content { heap = self.old.content.heap ++ array (element_type element) (replicate count (pos 0)) ∷ [] }) }
        ensures number { IfSome result (λ number. number ≡ length self.old.content.heap) }
        ensures none { IfNone result (self.new ≡ self.old) }
        ensures memory { self.new.memory ≡ self.old.memory }
    {
        self.heap.make_array(element, count)
    }

    /// A new throwable behind the other objects, and its number. `None` exactly where no room is left for it, and then
    /// nothing changed.
    pub fn make_throwable(&mut self, thrown: Thrown) -> Option<u32>
        ensures room { IsSome result ↔ IsTrue (has_room self.old.content.heap 1) }
        ensures made { OnSome result (self.new.content ≡ record self.old.content { heap = self.old.content.heap ++ throwable thrown ∷ [] }) }
        ensures number { IfSome result (λ number. number ≡ length self.old.content.heap) }
        ensures none { IfNone result (self.new ≡ self.old) }
        ensures memory { self.new.memory ≡ self.old.memory }
    {
        self.heap.make_throwable(thrown)
    }

    /// Prints a text and a line feed, where they find room behind what was printed, and says whether they did.
    pub fn print_line(&mut self, text: &[u8]) -> bool
        ensures room { result ≡ nat_le (length self.old.content.output + (length text.now + 1)) most_printed }
        ensures printed { OnTrue result (self.new.content ≡ record self.old.content { output = self.old.content.output ++ (text.now ++ 10 ∷ []) }) }
        ensures full { OnFalse result (self.new ≡ self.old) }
        ensures memory { self.new.memory ≡ self.old.memory }
    {
        if MOST_PRINTED - self.printed <= text.len() {
            return false;
        }
        put_line(&mut self.output, self.printed, text);
        self.printed += text.len() + 1;
        true
    }

    /// The bytes that were printed.
    pub fn output(&self) -> &[u8]
        ensures { result.now ≡ self.now.content.output }
    {
        &self.output[..self.printed]
    }

    /// Whether a throwable was raised.
    pub fn raised(&self) -> bool
        ensures { result ≡ self.now.content.raised }
    {
        self.raised
    }

    /// From now on a throwable was raised.
    pub fn set_raised(&mut self)
        ensures { self.new ≡ record self.old { content = record self.old.content { raised = true } } }
    {
        self.raised = true;
    }
}
