// A cosine and a sine, or what is made from them, side by side: of one lane or of eight, in either format.
#[derive(Clone, Copy)]
pub struct CosSin<T> {
    pub cos: T,
    pub sin: T,
}
