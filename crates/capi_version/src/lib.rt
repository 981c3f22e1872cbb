// The version of the archives, as include/luffcringle.h numbers it: 10,000 times the first number, 100 times the second, and the third. A test compares the two.
#![tactic(auto)]

ghost use Rattle.std.specs.Prelude.{◌≡◌};

#[unsafe(no_mangle)]
pub extern "C" fn luffcringle_version() -> u64
    ensures { result ≡ 500 }
{
    500
}
