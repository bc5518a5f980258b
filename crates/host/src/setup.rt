// A node's settings for C: checked, made blank, a table of packing hours or of classes loaded, and the kind of what began last. Each function states the same
// equation as what it wraps.
ghost use Rattle.std.specs.Prelude.{◌≡◌};
ghost use Rattle.settings.specs.Settings.{settings_number, blank_number, blank_after, load_number, load_after, kind_of};
ghost use Rattle.frontend.specs.Plan.{load_classes, front_told, front_settings};

use record::Called;

// The number of settings. Ruled out: 2 for settings of another length; 0 for ten tenths that wait.
pub fn senna_check_settings(settings: &[u8]) -> u8
    ensures { result ≡ settings_number settings.now }
{
    numbers::number(settings::check(settings))
}

// Makes settings blank: nothing is loaded. Ruled out: a byte of a buffer of another length altered; a table kept.
pub fn senna_blank_settings(settings: &mut [u8]) -> u8
    ensures value { result ≡ blank_number settings.old }
    ensures settings_after { settings.new ≡ blank_after settings.old }
{
    numbers::number(settings::blank(settings))
}

// Loads a table of packing hours in place of the one before. Ruled out: a faulty table that takes the old one's place; 2 for a table that is too short.
pub fn senna_load_hours(settings: &mut [u8], list: &[u8]) -> u8
    ensures value { result ≡ load_number settings.old list.now }
    ensures settings_after { settings.new ≡ load_after settings.old list.now }
{
    numbers::number(settings::load_hours(settings, list))
}

// Loads a table of classes in place of the one before; none waits after it. Ruled out: a table loaded while a transaction is open; tenths that wait still.
pub fn senna_load_classes(bytes: &[u8], settings: &mut [u8], me: u8, list: &[u8]) -> Called
    ensures value { result ≡ front_told bytes.now settings.old me (load_classes list.now) }
    ensures settings_after { settings.new ≡ front_settings bytes.now settings.old me (load_classes list.now) }
{
    frontend::load_classes(bytes, settings, me, list)
}

// The kind of the transaction begun last: 0 the host's own, 1 a batch. Ruled out: 1 after classes were loaded; a kind of damaged settings.
pub fn senna_settings_kind(settings: &[u8]) -> Called
    ensures { result ≡ kind_of settings.now }
{
    Called::from(settings::kind(settings))
}
