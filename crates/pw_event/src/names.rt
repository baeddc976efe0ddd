ghost use Rattle.std.specs.Prelude.{◌≡◌, ◌<◌, length};
ghost use Rattle.pw_event.specs.Line.{terminal_name, pair_name, class_name, file_name};

use pw_code::system::System;

/// The name of a terminal.
pub fn terminal_name(system: &System, terminal: u32) -> &[u8]
    requires { terminal < length system.now.terminals }
    ensures { result.now ≡ terminal_name system.now terminal }
{
    system.terminals.as_slice()[terminal as usize]
        .name
        .as_slice()
}

/// The name of a pair.
pub fn pair_name(system: &System, tcp: u32) -> &[u8]
    requires { tcp < length system.now.tcps }
    ensures { result.now ≡ pair_name system.now tcp }
{
    system.tcps.as_slice()[tcp as usize].as_slice()
}

/// The name of a class.
pub fn class_name(system: &System, class: u32) -> &[u8]
    requires { class < length system.now.classes }
    ensures { result.now ≡ class_name system.now class }
{
    system.classes.as_slice()[class as usize].name.as_slice()
}

/// The name of a file.
pub fn file_name(system: &System, file: u32) -> &[u8]
    requires { file < length system.now.files }
    ensures { result.now ≡ file_name system.now file }
{
    system.files.as_slice()[file as usize].name.as_slice()
}
