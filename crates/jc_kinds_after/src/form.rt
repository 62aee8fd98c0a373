//! What each shape takes and leaves.
ghost use Rattle.std.specs.Prelude.{◌≡◌};
ghost use Rattle.jc_methods.specs.VerificationTypes.{Names};
ghost use Rattle.jc_kinds_after.specs.Shapes.{forms_of, forms_seen};

use crate::Want;
use crate::table::Shape;
use jc_methods::Kind;

/// What an instruction leaves: a value of a type, or the operand with this number, the deepest 0.
#[derive(Clone, Copy, Debug, PartialEq, Eq)]
pub enum Give {
    Kind(Kind),
    Item(u8),
}

/// The operands that are taken, the top one last, and what is left in their place.
#[derive(Clone, Copy)]
pub struct StackEffect {
    pub wants: &'static [Want],
    pub gives: &'static [Give],
}

/// What is left: the operand with a number, or a value of a type.
macro_rules! give {
    ($item:literal) => {
        Give::Item($item)
    };
    ($kind:ident) => {
        Give::Kind(Kind::$kind)
    };
}

/// The operands that are taken, and what is left in their place.
macro_rules! effect {
    ($($want:ident)* => $($give:tt)*) => {
        Some(StackEffect {
            wants: &[$(Want::$want),*],
            gives: &[$(give!($give)),*],
        })
    };
}

/// The form of a shape.
pub fn form_in(shape: Shape) -> Option<StackEffect>
    ensures { (names : Names) → forms_seen names result ≡ forms_of shape }
{
    match shape {
        Shape::No => None,
        Shape::Nothing => effect!(=>),
        Shape::PushNull => effect!(=> Null),
        Shape::PushInt => effect!(=> Int),
        Shape::PushLong => effect!(=> Long),
        Shape::PushFloat => effect!(=> Float),
        Shape::PushDouble => effect!(=> Double),
        Shape::ElementInt => effect!(Reference Int => Int),
        Shape::ElementLong => effect!(Reference Int => Long),
        Shape::ElementFloat => effect!(Reference Int => Float),
        Shape::ElementDouble => effect!(Reference Int => Double),
        Shape::PutInt => effect!(Reference Int Int =>),
        Shape::PutLong => effect!(Reference Int Long =>),
        Shape::PutFloat => effect!(Reference Int Float =>),
        Shape::PutDouble => effect!(Reference Int Double =>),
        Shape::PutReference => effect!(Reference Int Reference =>),
        Shape::Pop => effect!(Single =>),
        Shape::PopTwo => effect!(Single Single =>),
        Shape::PopPair => effect!(Pair =>),
        Shape::Dup => effect!(Single => 0 0),
        Shape::DupUnderOne => effect!(Single Single => 1 0 1),
        Shape::DupUnderTwo => effect!(Single Single Single => 2 0 1 2),
        Shape::DupUnderPair => effect!(Pair Single => 1 0 1),
        Shape::DupTwo => effect!(Single Single => 0 1 0 1),
        Shape::DupPair => effect!(Pair => 0 0),
        Shape::DupTwoUnderOne => effect!(Single Single Single => 1 2 0 1 2),
        Shape::DupPairUnderOne => effect!(Single Pair => 1 0 1),
        Shape::DupTwoUnderTwo => effect!(Single Single Single Single => 2 3 0 1 2 3),
        Shape::DupPairUnderTwo => effect!(Single Single Pair => 2 0 1 2),
        Shape::DupTwoUnderPair => effect!(Pair Single Single => 1 2 0 1 2),
        Shape::DupPairUnderPair => effect!(Pair Pair => 1 0 1),
        Shape::Swap => effect!(Single Single => 1 0),
        Shape::TwoInts => effect!(Int Int => Int),
        Shape::TwoLongs => effect!(Long Long => Long),
        Shape::TwoFloats => effect!(Float Float => Float),
        Shape::TwoDoubles => effect!(Double Double => Double),
        Shape::OneInt => effect!(Int => Int),
        Shape::OneLong => effect!(Long => Long),
        Shape::OneFloat => effect!(Float => Float),
        Shape::OneDouble => effect!(Double => Double),
        Shape::LongByInt => effect!(Long Int => Long),
        Shape::IntToLong => effect!(Int => Long),
        Shape::IntToFloat => effect!(Int => Float),
        Shape::IntToDouble => effect!(Int => Double),
        Shape::LongToInt => effect!(Long => Int),
        Shape::LongToFloat => effect!(Long => Float),
        Shape::LongToDouble => effect!(Long => Double),
        Shape::FloatToInt => effect!(Float => Int),
        Shape::FloatToLong => effect!(Float => Long),
        Shape::FloatToDouble => effect!(Float => Double),
        Shape::DoubleToInt => effect!(Double => Int),
        Shape::DoubleToLong => effect!(Double => Long),
        Shape::DoubleToFloat => effect!(Double => Float),
        Shape::CompareLongs => effect!(Long Long => Int),
        Shape::CompareFloats => effect!(Float Float => Int),
        Shape::CompareDoubles => effect!(Double Double => Int),
        Shape::TakeInt => effect!(Int =>),
        Shape::TakeLong => effect!(Long =>),
        Shape::TakeFloat => effect!(Float =>),
        Shape::TakeDouble => effect!(Double =>),
        Shape::TakeReference => effect!(Reference =>),
        Shape::TakeTwoInts => effect!(Int Int =>),
        Shape::TakeTwoObjects => effect!(Anything Anything =>),
        Shape::TakeObject => effect!(Anything =>),
        Shape::Length => effect!(Reference => Int),
    }
}
