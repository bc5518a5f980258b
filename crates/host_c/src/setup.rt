// A node's settings: `host::setup`, exported.
ghost use Rattle.std.specs.Prelude.{◌≡◌};
ghost use Rattle.settings.specs.Settings.{settings_number, blank_number, blank_after, load_number, load_after, kind_of};
ghost use Rattle.frontend.specs.Plan.{load_classes, front_told, front_settings};

use record::Called;

#[unsafe(no_mangle)]
pub extern "C" fn senna_check_settings(settings: &[u8]) -> u8
    ensures { result ≡ settings_number settings.now }
{
    host::setup::senna_check_settings(settings)
}

#[unsafe(no_mangle)]
pub extern "C" fn senna_blank_settings(settings: &mut [u8]) -> u8
    ensures value { result ≡ blank_number settings.old }
    ensures settings_after { settings.new ≡ blank_after settings.old }
{
    host::setup::senna_blank_settings(settings)
}

#[unsafe(no_mangle)]
pub extern "C" fn senna_load_hours(settings: &mut [u8], list: &[u8]) -> u8
    ensures value { result ≡ load_number settings.old list.now }
    ensures settings_after { settings.new ≡ load_after settings.old list.now }
{
    host::setup::senna_load_hours(settings, list)
}

#[unsafe(no_mangle)]
pub extern "C" fn senna_load_classes(
    bytes: &[u8],
    settings: &mut [u8],
    me: u8,
    list: &[u8],
) -> Called
    ensures value { result ≡ front_told bytes.now settings.old me (load_classes list.now) }
    ensures settings_after { settings.new ≡ front_settings bytes.now settings.old me (load_classes list.now) }
{
    host::setup::senna_load_classes(bytes, settings, me, list)
}

#[unsafe(no_mangle)]
pub extern "C" fn senna_settings_kind(settings: &[u8]) -> Called
    ensures { result ≡ kind_of settings.now }
{
    host::setup::senna_settings_kind(settings)
}
