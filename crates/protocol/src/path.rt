// A path as code keeps it.
ghost use Rattle.std.specs.Prelude.{◌≡◌, ◌+◌, ◌<◌, ◌≤◌, [], ◌∷◌, ◌++◌};

// Node numbers at the front of an array, at most 16 of them (document 01, The tree).
#[derive(Clone, Copy)]
pub struct Path {
    pub numbers: [u8; 16],
    pub len: usize,
    ghost short: { len ≤ 16 },
}

impl Path {
    ghost use Rattle.protocol.specs.KeptPath.{path_in, PathIs};

    // The device's path.
    pub fn device() -> Path
        ensures { PathIs (1 ∷ []) 1 result }
    {
        let mut numbers = [0u8; 16];
        numbers[0] = 1;
        Path { numbers, len: 1 }
    }

    // The path of the child with a number. A path of 16 numbers has none, and stays.
    pub fn child(self, number: u8) -> Path
        ensures { self.len < 16 → PathIs (path_in self ++ number ∷ []) (self.len + 1) result }
    {
        let mut numbers = self.numbers;
        let len = self.len;
        if numbers.len() <= len {
            return self;
        }
        numbers[len] = number;
        Path {
            numbers,
            len: len + 1,
        }
    }

    pub fn as_slice(&self) -> &[u8]
        ensures { result.now ≡ path_in self.now }
    {
        let len = self.len;
        &self.numbers[..len]
    }
}
