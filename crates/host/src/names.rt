// The name of an error code.
ghost use Rattle.std.specs.Prelude.{◌≡◌};
ghost use Rattle.camac.specs.Names.{name_of};

#[unsafe(no_mangle)]
pub extern "C" fn camlist_code_name_v2(code: u64, name: &mut [u8; 16])
    ensures { name.new ≡ name_of code }
{
    *name = camac::error_name(code as usize);
}
