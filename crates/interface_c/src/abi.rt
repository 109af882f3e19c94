// The layout that callers are compiled against.
ghost use Rattle.std.specs.Prelude.{◌≡◌};

// Raised whenever a struct, a parameter or the meaning of a number changes.
#[unsafe(no_mangle)]
pub extern "C" fn vareffect_abi() -> u64
    ensures { result ≡ 2 }
{
    interface::vareffect_abi()
}
