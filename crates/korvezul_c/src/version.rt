// The version, exported.
ghost use Rattle.std.specs.Prelude.{◌≡◌};
ghost use Rattle.korvezul.specs.Version.{version};

// 7.1.0: groups are set, asked of and reached by DHC messages.
#[unsafe(no_mangle)]
pub extern "C" fn korvezul_version() -> u32
    ensures { result ≡ version }
{
    korvezul::version::korvezul_version()
}
