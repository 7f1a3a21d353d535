// Laws of linked images: calls of no effect, whose contracts state what holds of every unit.
ghost use Rattle.image_link.specs.Laws.{ImagesAreSmall, NamedImagesAreSmall, WritersAreMet};

/// An image has at most 128 words of code for each token and 4,096 more, and at most 768 bytes for each
/// token and 131,072 more.
pub fn images_are_small()
    ensures { ImagesAreSmall }
{}

/// Nor has one with sections and symbols more bytes, where names have at most 96.
pub fn named_images_are_small()
    ensures { NamedImagesAreSmall }
{}

/// The tables, frames and header of an image are such as their writers take, also in their addresses.
pub fn writers_are_met()
    ensures { WritersAreMet }
{}
