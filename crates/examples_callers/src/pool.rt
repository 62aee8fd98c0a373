//! A caller of jc_pool.
ghost use Rattle.std.specs.Prelude.{◌≡◌, Some, IfOk};
ghost use Rattle.jc_bytes.specs.Texts.{IsShortText};
ghost use Rattle.jc_pool.specs.Adding.{Extends};
ghost use Rattle.jc_pool.specs.Lookup.{string_of, member_of};

use jc_bytes::Fail;
use jc_pool::{Pool, PoolFull};
use std::alloc::Global;

/// The places in a pool of what a call of a static method with a constant text names.
#[derive(Clone, Copy, Debug, PartialEq, Eq)]
pub struct CallPlaces {
    /// The String that the method is given.
    pub text: u16,
    /// The method.
    pub method: u16,
}

/// Puts what a call of a static method with a constant text names into a pool, where it isn't there.
///
/// # Errors
///
/// `Memory` where memory was refused, `PoolFull` where the pool would have too many entries. The text may have been put then.
pub fn add_call(
    alloc: Global,
    pool: &mut Pool,
    class: &[u8],
    name: &[u8],
    desc: &[u8],
    text: &[u8],
) -> Result<CallPlaces, Fail<PoolFull>>
    requires class { IsShortText class.now }
    requires name { IsShortText name.now }
    requires desc { IsShortText desc.now }
    requires text { IsShortText text.now }
    ensures text { IfOk result (λ places. string_of pool.new places.text ≡ Some text.now) }
    ensures method { IfOk result (λ places. member_of pool.new places.method
        ≡ Some (record { tag = 10; class = class.now; name = name.now; desc = desc.now })) }
    ensures kept { Extends pool.old pool.new }
{
    let text = pool.add_string(alloc, text)?;
    let method = pool.add_member(alloc, 10, class, name, desc)?;
    Ok(CallPlaces { text, method })
}
