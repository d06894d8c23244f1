// The library's version, for who finds it at run time; include/bed.h names the same one.
ghost use Rattle.std.specs.Prelude.{◌≡◌};
ghost use Rattle.bed.specs.Version.{version};

#[unsafe(no_mangle)]
pub extern "C" fn bed_version() -> u32
    ensures { result ≡ version }
{
    0x000200
}
