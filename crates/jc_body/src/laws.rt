//! Laws of the bodies of methods.
//!
//! [`each_method_has_one_answer`] is the promise of this crate; the other is a step, which the crates above cite too.
ghost use Rattle.std.specs.Prelude.{◌≡◌, ◌<◌, ◌⊎◌, ℕ, List, length};
ghost use Rattle.std.specs.List.{IsDistinct};
ghost use Rattle.std.specs.Str.{bytes_eq};
ghost use Rattle.jc_methods.specs.declared.body.Body.{Body};
ghost use Rattle.jc_bytes.specs.declared.refusal.Refusal.{Refusal};
ghost use Rattle.jc_methods.specs.VerificationTypes.{Names, TypeState, TypeStateAt};
ghost use Rattle.jc_pool.specs.Pool.{PoolValue};
ghost use Rattle.jc_class.specs.declared.class_file.ClassFile.{ClassFile};
ghost use Rattle.jc_class.specs.declared.class_file.Member.{Member};
ghost use Rattle.jc_class.specs.Writable.{IsClassFile};
ghost use Rattle.jc_body.specs.BodyOf.{BodyOf, Bodiless, FaultOf};
ghost use Rattle.jc_body.specs.declared.coded.Coded.{Coded};
ghost use Rattle.jc_body.specs.StackMap.{BeginsWith, HasFrames, HasFramesOrFault, BadStackMap};

/// A method of a class file is bodiless, or has a body under some list of different names, or has a fault or a
/// subroutine instruction; and only one of these, once. Under a list of different names it has one body.
pub fn each_method_has_one_answer()
    ensures each { (c : ClassFile) (number : ℕ) → IsClassFile c → number < length c.methods
        → Bodiless c number
        ⊎ (((names : Names) × (b : Body) × IsDistinct bytes_eq names × BodyOf names c number b)
        ⊎ ((r : Refusal) × FaultOf c number r)) }
    ensures bodiless_or_body { (names : Names) (c : ClassFile) (number : ℕ) (b : Body) → Bodiless c number → BodyOf names c number b → ⊥ }
    ensures bodiless_or_fault { (c : ClassFile) (number : ℕ) (r : Refusal) → Bodiless c number → FaultOf c number r → ⊥ }
    ensures body_or_fault { (names : Names) (c : ClassFile) (number : ℕ) (b : Body) (r : Refusal) → BodyOf names c number b
        → FaultOf c number r → ⊥ }
    ensures one_body { (names : Names) (c : ClassFile) (number : ℕ) (a b : Body) → IsDistinct bytes_eq names
        → BodyOf names c number a → BodyOf names c number b → a ≡ b }
    ensures one_fault { (c : ClassFile) (number : ℕ) (r s : Refusal) → FaultOf c number r → FaultOf c number s → r ≡ s }
{}

/// The code of a method has frames or a fault of its stack map table, and only one of these, once.
pub fn each_stack_map_has_frames_or_a_fault()
    ensures each { (pool : PoolValue) (owner : List ℕ) (method : Member) (coded : Coded) (entry : TypeState)
        → BeginsWith pool owner method coded entry → HasFramesOrFault pool owner method coded }
    ensures apart { (pool : PoolValue) (owner : List ℕ) (method : Member) (coded : Coded) (frames : List TypeStateAt) (place : ℕ)
        → HasFrames pool owner method coded frames → BadStackMap pool owner method coded place → ⊥ }
    ensures one_list { (pool : PoolValue) (owner : List ℕ) (method : Member) (coded : Coded) (a b : List TypeStateAt)
        → HasFrames pool owner method coded a → HasFrames pool owner method coded b → a ≡ b }
    ensures one_fault { (pool : PoolValue) (owner : List ℕ) (method : Member) (coded : Coded) (a b : ℕ)
        → BadStackMap pool owner method coded a → BadStackMap pool owner method coded b → a ≡ b }
{}
