//! At most sixteen marked sectors.

mod marking;

/// The marked sectors, in the order of their marking.
// No ghost field says that there are at most sixteen: then code that names a cache over marks over lent memory as one type gets no
// proof. An `ArrayVec`, or a model that forgets the places beyond `count`, is no `Copy` type.
#[derive(Clone, Copy)]
pub struct Marks {
    sectors: [u32; 16],
    count: usize,
}
