// An image with no files, made in bytes that are lent.
#![tactic(auto)]

ghost use Rattle.std.specs.Prelude.{◌≡◌};
ghost use Rattle.geometry.specs.Sizes.{lawful_length};
ghost use Rattle.making.specs.Making.{emptied};

use geometry::Geometry;
use moving::fill;

// Makes the lent bytes an image with no files, if there are as many as an image has; else they stay as they were. Whether it did.
pub fn make_empty(image: &mut [u8]) -> bool
    ensures { (result ≡ lawful_length image.old) × (image.new ≡ emptied image.old) }
{
    if Geometry::lawful_length(image) {
        fill(image, 0, image.len(), 0);
        true
    } else {
        false
    }
}
