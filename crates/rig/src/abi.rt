// The number of the exports, by which a caller notices a library that is older or newer than its declarations.
ghost use Rattle.std.specs.Prelude.{◌≡◌};
ghost use Rattle.rig.specs.Abi.{abi};

// It rises with each change of an export's declaration, of the layout of a lent row or field, or of what a status means.
// `bindings/exports` holds include/rig.h and the declarations for Rust to it.
const ABI: u32 = 2;

#[unsafe(no_mangle)]
pub extern "C" fn rig_abi() -> u32
    ensures answer { result ≡ abi }
{
    ABI
}
