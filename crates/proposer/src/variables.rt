//! Which cells a program may change, and which it may read.

use bin_tape::Image;
use certificate::Certificate;
use declaration::Declaration;
use std::alloc::Allocator;
use usage::{Use, used};
use wordset::WordSet;

/// The variables that the program may write by the facts of a certificate, if those are not all variables.
pub(crate) fn fewer_variables<A: Allocator, D: Allocator>(
    image: &Image,
    declaration: &Declaration<D>,
    certificate: &Certificate<A>,
) -> Option<WordSet> {
    let cells = used(Use::Write, image, declaration, certificate);
    let variables = declaration.variables();
    if variables.is_subset(&cells) {
        return None;
    }
    Some(cells.meet(variables))
}

/// The cells that the program may read by the facts of a certificate.
pub(crate) fn read<A: Allocator, D: Allocator>(
    image: &Image,
    declaration: &Declaration<D>,
    certificate: &Certificate<A>,
) -> WordSet {
    used(Use::Read, image, declaration, certificate)
}
