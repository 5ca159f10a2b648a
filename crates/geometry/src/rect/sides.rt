ghost use Rattle.std.specs.Prelude.{◌≡◌};

use super::Rect;

impl Rect {
    pub fn west(&self) -> i32
        ensures { result ≡ self.now.west }
    {
        self.west
    }

    pub fn south(&self) -> i32
        ensures { result ≡ self.now.south }
    {
        self.south
    }

    pub fn east(&self) -> i32
        ensures { result ≡ self.now.east }
    {
        self.east
    }

    pub fn north(&self) -> i32
        ensures { result ≡ self.now.north }
    {
        self.north
    }
}
