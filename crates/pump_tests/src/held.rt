//! A value whose end is one call. What stands over a `?` is let go at each of them, and a disk or a pump
//! would be there part by part.

pub struct Held<T: Drop>(pub T);

impl<T: Drop> Drop for Held<T> {
    fn drop(self) {
        let Held(value) = self;
        drop(value);
    }
}

impl<T: Drop> Held<T> {
    pub fn taken(self) -> T {
        let Held(value) = self;
        value
    }
}
