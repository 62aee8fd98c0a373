//! The names and types of what instrumentation adds to a class, and of what that calls (JVM Specification
//! 4.3, 4.5, 4.6), and how many probes there may be.
ghost use Rattle.std.specs.Prelude.{◌≡◌};
ghost use Rattle.jc_methods.specs.ProbeMembers.{fetch_of};

/// The class of a probe array, which is also its descriptor.
pub const PROBE_ARRAY: &[u8] = b"[Z";

/// The name of the field that keeps the probe array of a class.
pub const DATA_NAME: &[u8] = b"$jacocoData";

/// The name of the method that gives the probe array of a class.
pub const INIT_NAME: &[u8] = b"$jacocoInit";

/// The descriptor of that method.
pub const INIT_TYPE: &[u8] = b"()[Z";

/// The class whose method makes probe arrays.
pub const RUNTIME_CLASS: &[u8] = b"org/jacoco/agent/rt/internal/Offline";

/// The name of the method that makes a probe array, or gives the one that it made for the class before.
pub const FETCH_NAME: &[u8] = b"getProbes";

/// The descriptor of that method, which is given the id and the name of the class and the number of its probes.
pub const FETCH_TYPE: &[u8] = b"(JLjava/lang/String;I)[Z";

/// The descriptor of the constant that gives the probe array.
pub const CONSTANT_TYPE: &[u8] = b"Ljava/lang/Object;";

/// The descriptor of the bootstrap method that gives that constant its value (JVM Specification 5.4.3.6).
pub const BOOTSTRAP_TYPE: &[u8] =
    b"(Ljava/lang/invoke/MethodHandles$Lookup;Ljava/lang/String;Ljava/lang/Class;)[Z";

/// The name of the attribute that lists the bootstrap methods of a class (JVM Specification 4.7.23).
pub const BOOTSTRAPS_NAME: &[u8] = b"BootstrapMethods";

/// The first version whose classes get their probe array by a constant.
pub const FIRST_CONSTANT: u16 = 55;

/// The most probes of an instrumented class.
pub const MOST_PROBES: u32 = 65_535;

/// The most that `sipush` pushes (JVM Specification 6.5).
pub const MOST_SHORT: u32 = 32_767;

/// How the methods of a class get its probe array.
#[derive(Clone, Copy, Debug, PartialEq, Eq)]
pub enum Fetch {
    /// They call a method, which keeps the array in a static field.
    Member,
    /// They load a constant that is computed when it is first used (JVM Specification 4.4.10).
    Constant,
}

/// How the methods of a class of this major version get its probe array.
#[tactic(auto, unfolding(crate::specs::ProbeMembers::fetch_of))]
pub fn fetch_of(version: u16) -> Fetch
    ensures { result ≡ fetch_of version }
{
    if version >= FIRST_CONSTANT {
        Fetch::Constant
    } else {
        Fetch::Member
    }
}
