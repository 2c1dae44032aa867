// What a wire was to listen at, whether it listens, and whether it came to its end.
ghost use Rattle.std.specs.Prelude.{◌≡◌, ◌≢◌, ◌≤◌, [], length, true, false};

use arrayvec::ArrayVec;

/// The ports that a wire was to listen at, none before; whether it listens; and whether it came to its end.
#[derive(Drop)]
pub struct Door {
    ports: ArrayVec<u16, 16>,
    up: bool,
    over: bool,
    ghost called: { ports.items ≡ [] → up ≡ false },
    ghost listening: { up ≡ false → over ≡ false },
}

impl Door {
    ghost use Rattle.mio_wire.specs.Doors.{door_of, new_door};

    /// The door of a wire that was not to listen yet.
    pub fn new() -> Self
        ensures { door_of result ≡ new_door }
    {
        Door {
            ports: ArrayVec::new(),
            up: false,
            over: false,
        }
    }

    /// Notes the ports to listen at.
    pub fn call(&mut self, ports: &[u16])
        requires once { (door_of self.old).ports ≡ [] }
        requires few { length ports.now ≤ 16 }
        ensures { door_of self.new ≡ record (door_of self.old) { ports = ports.now } }
    {
        match self.ports.try_extend_from_slice(ports) {
            Ok(()) => {}
            Err(_) => unreachable!(),
        }
    }

    /// The wire listens from now on.
    pub fn open(&mut self)
        requires { (door_of self.old).ports ≢ [] }
        ensures { door_of self.new ≡ record (door_of self.old) { up = true } }
    {
        self.up = true;
    }

    /// The wire came to its end.
    pub fn end(&mut self)
        requires { (door_of self.old).up ≡ true }
        ensures { door_of self.new ≡ record (door_of self.old) { over = true } }
    {
        self.over = true;
    }
}
