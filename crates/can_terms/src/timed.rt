/// Something with its bit time, counted from 0.
#[derive(Clone, Copy, Debug)]
pub struct Timed<T> {
    pub time: u32,
    pub told: T,
}
