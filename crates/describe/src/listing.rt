// What a directory holds, line by line.
ghost use Rattle.std.specs.Prelude.{◌≤◌, length};

use image::{Directory, Entry};
use lines::Line;
use std::io;

pub fn directory(rt: HostRuntime, d: Directory) -> io::Result<()> {
    let one = saying::line(
        rt,
        Line::new().field(b"Modules (M): ", u64::from(d.modules)),
    );
    let two = saying::line(
        rt,
        Line::new().field(
            b"Cycles between looks at the time queue (N): ",
            u64::from(d.every),
        ),
    );
    let three = saying::line(rt, events(d.defined));
    one.and(two).and(three).and(modules(rt, d))
}

fn events(defined: u64) -> Line
    ensures { length result ≤ 300 }
{
    let name = Line::new().text(b"Defined events:");
    if defined == 0 {
        name.text(b" none")
    } else {
        name.members(defined)
    }
}

// The used entries, a line for each module.
fn modules(rt: HostRuntime, d: Directory) -> io::Result<()> {
    let mut written = Ok(());
    for m in 0..d.entries.len().min(d.modules as usize) {
        written = written.and(saying::line(rt, entry(m, d.entries[m])));
    }
    written
}

fn entry(m: usize, e: Entry) -> Line
    requires { m ≤ 31 }
    ensures { length result ≤ 200 }
{
    let reentrant: &[u8] = if e.flags == 1 {
        b", reentrant"
    } else {
        b", not reentrant"
    };
    Line::new()
        .field(b"Module ", m as u64)
        .field(b": level ", u64::from(e.level))
        .field(b", core units ", u64::from(e.units))
        .text(reentrant)
        .field(b", entry point ", u64::from(e.point))
}
