// The shapes of lines as numbers, by which a method's lines are handed over: `goes_to` is public over any bytes, and a table keeps one for each line.
ghost use Rattle.std.specs.Prelude.{◌≡◌};
ghost use Rattle.code.specs.Blocks as Blocks;
ghost use Rattle.code.specs.Vocabulary.Shapes as Shapes;

use crate::Shape;

// The number of a shape.
impl From<Shape> for u8 {
    ghost from_gives = { λ shape n. n ≡ Blocks.shape_number shape };

    #[tactic(auto, unfolding(crate::specs::Blocks::shape_number))]
    fn from(shape: Shape) -> u8 {
        match shape {
            Shape::If => 0,
            Shape::Else => 1,
            Shape::Fi => 2,
            Shape::While => 3,
            Shape::Od => 4,
            Shape::Return => 5,
            Shape::Await => 6,
            Shape::Plain => 7,
        }
    }
}

// The shape of a number; one of no shape is a plain line's.
impl From<u8> for Shape {
    ghost from_gives = { λ n shape. shape ≡ Shapes.shape_at n };

    #[tactic(auto, using(crate::proofs::Shapes::shape_plain), unfolding(crate::specs::Vocabulary::Shapes::shape_at))]
    fn from(number: u8) -> Shape {
        match number {
            0 => Shape::If,
            1 => Shape::Else,
            2 => Shape::Fi,
            3 => Shape::While,
            4 => Shape::Od,
            5 => Shape::Return,
            6 => Shape::Await,
            _ => Shape::Plain,
        }
    }
}
