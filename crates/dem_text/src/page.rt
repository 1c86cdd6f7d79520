// Text on its way to standard output through a lent array: a full array is written out and begun again.
ghost use Rattle.std.specs.Prelude.{◌≡◌};

use std::{fmt, io};

#[derive(Drop)]
pub struct Page<'r, 'a, P> {
    rt: &'r P,
    room: &'a mut [u8],
    len: usize,
}

impl<'r, 'a, P: Print> Page<'r, 'a, P> {
    pub fn new(rt: &'r P, room: &'a mut [u8]) -> Self
        ensures { result.len ≡ 0 }
    {
        Page { rt, room, len: 0 }
    }

    // Writes out what is in the array.
    pub fn finish(&mut self) -> io::Result<()>
        ensures { self.new.len ≡ 0 }
    {
        let rt = self.rt;
        let len = self.len;
        self.len = 0;
        match self.room.get(..len) {
            Some(text) => rt.write_all(text),
            None => Ok(()),
        }
    }
}

impl<'r, 'a, P: Print> fmt::Write for Page<'r, 'a, P> {
    fn write_str(&mut self, text: &str) -> fmt::Result {
        for b in text.as_bytes() {
            if self.len >= self.room.len() && self.finish().is_err() {
                return Err(fmt::Error);
            }
            let len = self.len;
            if let Some(place) = self.room.get_mut(len) {
                *place = *b;
                self.len = len + 1;
            }
        }
        Ok(())
    }
}
