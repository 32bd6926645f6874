ghost use Rattle.std.specs.Prelude.{◌≡◌};

/// The version of the library: 1,000,000 for each major version, 1,000 for each minor one, and 1 for each patch.
const VERSION: u32 = 3_006;

/// The version of the library, as the header's GIST_VERSION.
#[unsafe(no_mangle)]
pub extern "C" fn gist_version() -> u32
    ensures { result ≡ 3006 }
{
    VERSION
}
