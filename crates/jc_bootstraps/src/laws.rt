//! Laws of the attributes BootstrapMethods.
ghost use Rattle.std.specs.Prelude.{◌≡◌, ◌↔◌, ℕ, List, Some, IsTrue};
ghost use Rattle.jc_pool.specs.Lookup.{utf8_of};
ghost use Rattle.jc_pool.specs.Pool.{PoolValue};
ghost use Rattle.jc_class.specs.declared.class_file.Attribute.{Attribute};
ghost use Rattle.jc_bootstraps.specs.Bootstraps.{Bootstrap, bootstraps, has_name};

/// An attribute has a name exactly where this text stands at the place of its name (JVM Specification 4.7).
pub fn each_name_is_a_text()
    ensures { (pool : PoolValue) (name : List ℕ) (a : Attribute) → IsTrue (has_name pool name a) ↔ (utf8_of pool a.name ≡ Some name) }
{}

/// Bytes spell the bootstrap methods of one list, or of none (JVM Specification 4.7.23).
pub fn each_body_has_one_list()
    ensures { (body : List ℕ) (entries others : List Bootstrap) → bootstraps.Text body entries → bootstraps.Text body others
        → entries ≡ others }
{}
