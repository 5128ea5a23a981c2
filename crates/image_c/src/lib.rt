// The image calls for C: each export is the function of crate image with its name and its clauses.
#![tactic(auto)]

ghost use Rattle.std.specs.Prelude.{◌≡◌};
ghost use Rattle.image.specs.Making.{fresh_number, fresh_image};
ghost use Rattle.image.specs.Image.{decide, image_number, image_after, undo, check_number, check_bytes};
ghost use Rattle.image.specs.Series.{done_of, image_done};

// Makes the fresh image of a puzzle in the lent bytes. The refusal's number, 1 to 5, or 0.
#[unsafe(no_mangle)]
pub extern "C" fn dbchoco_fresh(
    image: &mut [u8],
    height: u32,
    width: u32,
    colours: &[u8],
    clues: &[i32],
) -> u32
    ensures number { result ≡ fresh_number height width colours.now clues.now
        image.old }
    ensures bytes { image.new ≡ fresh_image height width colours.now clues.now
        image.old }
{
    image::making::dbchoco_fresh(image, height, width, colours, clues)
}

// Decides a border of the image; side 0 is open, any other wall. The refusal's number, or 0.
#[unsafe(no_mangle)]
pub extern "C" fn dbchoco_decide(image: &mut [u8], border: u32, side: u32) -> u32
    ensures number { result ≡ image_number image.old (decide border side) }
    ensures bytes { image.new ≡ image_after image.old (decide border side) }
{
    image::dbchoco_decide(image, border, side)
}

// Takes the last decision of the image back. The refusal's number, or 0.
#[unsafe(no_mangle)]
pub extern "C" fn dbchoco_undo(image: &mut [u8]) -> u32
    ensures number { result ≡ image_number image.old undo }
    ensures bytes { image.new ≡ image_after image.old undo }
{
    image::dbchoco_undo(image)
}

// Checks the image. The refusal's number, 32 plus the count of undecided borders for a pass, or 65,536 plus the count
// of literals for a conflict; a reason's literals stand from the start of the memory, two bytes each.
#[unsafe(no_mangle)]
pub extern "C" fn dbchoco_check(image: &[u8], memory: &mut [u8]) -> u32
    ensures number { result ≡ check_number image.now memory.old }
    ensures bytes { memory.new ≡ check_bytes image.now memory.old }
{
    image::dbchoco_check(image, memory)
}

// Makes the calls of the codes one after another, up to the first that is refused; none on an alien image. How many are
// done.
#[unsafe(no_mangle)]
pub extern "C" fn dbchoco_calls(image: &mut [u8], codes: &[u16]) -> usize
    ensures number { result ≡ done_of image.old codes.now }
    ensures bytes { image.new ≡ image_done image.old codes.now }
{
    image::series::dbchoco_calls(image, codes)
}
