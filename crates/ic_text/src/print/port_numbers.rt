ghost use Rattle.std.specs.Prelude.{◌≡◌, ◌+◌, ◌<◌, ◌^◌};
ghost use Rattle.ic_text.specs.Numbers.{bare, port_number, GivesPort};

/// The numbers of the wires at an agent's ports, if they have any, each kept as one more than it is. 0 stands for none.
#[derive(Clone, Copy)]
pub(crate) struct PortNumbers {
    ports: [u64; 3],
}

impl PortNumbers {
    /// No numbers.
    pub(crate) fn bare() -> PortNumbers
        ensures { result ≡ bare }
    {
        PortNumbers { ports: [0; 3] }
    }

    /// The number at a port, if it has one.
    pub(crate) fn number(&self, port: u8) -> Option<u64>
        ensures { result ≡ port_number self.now port }
    {
        self.ports.get(usize::from(port))?.checked_sub(1)
    }

    /// Gives a port a number.
    pub(crate) fn give(&mut self, port: u8, number: u64)
        requires port { port < 3 }
        requires small { number + 1 < 2 ^ 64 }
        ensures { GivesPort port number self.old self.new }
    {
        self.ports[usize::from(port)] = number + 1;
    }
}
