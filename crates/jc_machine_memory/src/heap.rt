//! The heap.
ghost use Rattle.std.specs.Prelude.{◌≡◌, ◌↔◌, ◌+◌, ◌<◌, ◌^◌, ◌%◌, [], ◌∷◌, ◌++◌, pos, length, take, replicate, slice_get, IsTrue, IsSome, IfSome, IfOk, IfNone, OnSome};
ghost use Rattle.std.specs.Int.{w32, cast_signed};
ghost use Rattle.jc_bytes.specs.Descriptor.{Long};
ghost use Rattle.jc_machine_model.specs.Heap.{heap_words, has_room, array, throwable};
ghost use Rattle.jc_machine_model.specs.Arrays.{element_value};
ghost use Rattle.jc_machine_memory.specs.Values.{value_of};
ghost use Rattle.jc_machine_memory.specs.Heaps.{element_type, TellsOf, HasFewElements, object_at, HasElement, HasIntElement, element_in, with_element_at};

use crate::element::{Element, class_number, class_of_number};
use crate::value::Value;
use jc_bytes::Memory;
use jc_programs::Thrown;
use jc_region::Region;
use std::alloc::Global;
use std::marker::Model;

/// What stands in the heap.
#[derive(Clone, Copy, Debug, PartialEq, Eq)]
pub enum HeapObject {
    /// An array of so many elements.
    Array { element: Element, count: u32 },
    /// A throwable of the class.
    Throwable(Thrown),
}

/// Arrays and throwables in the order in which they were made, in memory that is taken once.
#[derive(Drop)]
pub struct Heap {
    region: Region,
}

impl Model for Heap {
    ghost use Rattle.jc_machine_memory.specs.Heaps.{HeapSeen};

    ghost Value = { HeapSeen };

    ghost use Rattle.std.specs.Coded.{codes};
    ghost use Rattle.jc_machine_memory.specs.Codes.{field_type_code};

    ghost coded = { Prim.hlevel (codes, field_type_code) };

    ghost use Rattle.jc_machine_memory.specs.Heaps.{heap_of, IsHeap};

    ghost view = { λ h. heap_of h.region };

    ghost invariant = { λ h. IsHeap h.region };
}

/// The most words of the heap.
const MOST_WORDS: u32 = 1_000_000;

impl Heap {
    /// A heap without objects. No later call takes memory.
    ///
    /// # Errors
    ///
    /// `Memory` where memory was refused.
    pub fn new(alloc: Global) -> Result<Heap, Memory>
        ensures { IfOk result (λ heap. heap.objects ≡ []) }
    {
        Ok(Heap {
            region: Region::with_words(alloc, MOST_WORDS)?,
        })
    }

    /// No object is left.
    pub fn reset(&mut self)
        ensures { self.new ≡ record self.old { objects = [] } }
    {
        self.region.reset();
    }

    /// The object with a number, if the heap has one.
    pub fn object(&self, number: u32) -> Option<HeapObject>
        ensures told { TellsOf result (slice_get self.now.objects number) }
        ensures few { IfSome result HasFewElements }
    {
        if number >= self.region.count() {
            return None;
        }
        let block = self.region.block(number);
        let head = self.region.get(block, 0);
        match Element::of_code(head) {
            Some(element) => Some(HeapObject::Array {
                element,
                count: block.len - 1,
            }),
            None => Some(HeapObject::Throwable(class_of_number(head.saturating_sub(16)))),
        }
    }

    /// How many words the objects take that were made before the one with a number, or all, where there is none.
    pub fn words_before(&self, number: u32) -> u32
        ensures { result ≡ heap_words (take number self.now.objects) }
    {
        if number < self.region.count() {
            self.region.block(number).at
        } else {
            self.region.used()
        }
    }

    /// A new array of so many elements, which are 0, behind the other objects, and its number. `None` exactly where no
    /// room is left for it, and then nothing changed.
    pub fn make_array(&mut self, element: Element, count: u32) -> Option<u32>
        requires { count < 2 ^ 31 }
        ensures room { IsSome result ↔ IsTrue (has_room self.old.objects (count + 1)) }
        ensures made { OnSome result (self.new.objects ≡ self.old.objects ++ array (element_type element) (replicate count (pos 0)) ∷ []) }
        ensures number { IfSome result (λ number. number ≡ length self.old.objects) }
        ensures none { IfNone result (self.new ≡ self.old) }
        ensures memory { self.new.memory ≡ self.old.memory }
    {
        let number = self.region.count();
        let block = self.region.alloc(count + 1)?;
        self.region.set(block, 0, element.code());
        Some(number)
    }

    /// A new throwable behind the other objects, and its number. `None` exactly where no room is left for it, and then
    /// nothing changed.
    pub fn make_throwable(&mut self, thrown: Thrown) -> Option<u32>
        ensures room { IsSome result ↔ IsTrue (has_room self.old.objects 1) }
        ensures made { OnSome result (self.new.objects ≡ self.old.objects ++ throwable thrown ∷ []) }
        ensures number { IfSome result (λ number. number ≡ length self.old.objects) }
        ensures none { IfNone result (self.new ≡ self.old) }
        ensures memory { self.new.memory ≡ self.old.memory }
    {
        let number = self.region.count();
        let block = self.region.alloc(1)?;
        self.region.set(block, 0, class_number(thrown) + 16);
        Some(number)
    }

    /// Element `i` of the array with a number.
    pub fn element(&self, number: u32, element: Element, i: u32) -> Value
        requires { HasElement (object_at self.now.objects number) (element_type element) i }
        ensures { value_of result ≡ element_value (element_type element) (element_in (object_at self.now.objects number) i) }
    {
        let block = self.region.block(number);
        let word = self.region.get(block, i + 1);
        match element {
            Element::Long => Value::Long(word.cast_signed()),
            _ => Value::Int(low_int(word)),
        }
    }

    /// Makes a number element `i` of an array of another type than long. All else stays as it is.
    pub fn set_int(&mut self, number: u32, i: u32, value: i32)
        requires { HasIntElement (object_at self.old.objects number) i }
        ensures { self.new ≡ record self.old { objects = with_element_at self.old.objects number i value } }
    {
        let block = self.region.block(number);
        self.region.set(block, i + 1, value.cast_unsigned() as u64);
    }

    /// Makes a number element `i` of an array of longs. All else stays as it is.
    pub fn set_long(&mut self, number: u32, i: u32, value: i64)
        requires { HasElement (object_at self.old.objects number) Long i }
        ensures { self.new ≡ record self.old { objects = with_element_at self.old.objects number i value } }
    {
        let block = self.region.block(number);
        self.region.set(block, i + 1, value.cast_unsigned());
    }
}

/// The int in the low bits of a word.
fn low_int(word: u64) -> i32
    ensures { result ≡ cast_signed w32 (word % 2 ^ 32) }
{
    ((word & 0xffff_ffff) as u32).cast_signed()
}
