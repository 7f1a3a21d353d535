// Why nothing is said of places.
use elf_image::ImageError;

/// Why nothing is said of places: the image is refused, or no chain of type records lies in its memory
/// from this address on; or memory ran out.
#[derive(Drop)]
pub enum PlaceError {
    Image(ImageError),
    NoType(u64),
}
