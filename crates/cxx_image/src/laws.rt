// Laws of images: calls of no effect, whose contracts state what holds of every checked program.
ghost use Rattle.cxx_image.specs.Image.{CheckedImagesAreSmall};

use image_link::laws::named_images_are_small;
use source_bounds::laws::checked_is_linkable;

/// An image has at most 768 bytes for each token of its source and 131,072 more, with sections and symbols.
pub fn checked_images_are_small()
    ensures { CheckedImagesAreSmall }
{
    named_images_are_small();
    checked_is_linkable();
}
