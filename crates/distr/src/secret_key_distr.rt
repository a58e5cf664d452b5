// The choices in each block of a block-binary key.
#[derive(Clone, Copy, Debug, PartialEq, Eq)]
pub enum BlockOccupancy {
    // The block with no one, or with a single one at any place.
    AtMostOne,
    // A single one at any place.
    ExactlyOne,
}

// The distribution of the coefficients of a secret key.
#[derive(Clone, Copy, Debug, PartialEq)]
pub enum SecretKeyDistr {
    // 0 and 1, each with probability 1/2.
    UniformBinary,
    // 1 with the given probability, else 0.
    Binary {
        one_probability: f64,
    },
    // 0 with probability 1/2, 1 and -1 with 1/4 each.
    SparseTernary,
    // -1, 0 and 1 with probability 1/3 each.
    UniformTernary,
    // -1 and 1 with the given probabilities, else 0.
    Ternary {
        negative_one_probability: f64,
        one_probability: f64,
    },
    // Exactly hamming_weight ones.
    FixedHammingWeightBinary {
        hamming_weight: usize,
    },
    // Consecutive blocks, each with a one at a chosen place, or none if the occupancy allows it.
    BlockBinary {
        block_size: usize,
        occupancy: BlockOccupancy,
    },
    // Exactly hamming_weight coefficients that are not 0, each with a sign of its own.
    FixedHammingWeightTernary {
        hamming_weight: usize,
    },
    // Exactly so many -1 and so many 1.
    FixedCompositionTernary {
        negative_one_weight: usize,
        one_weight: usize,
    },
    // Discrete Gaussian with this deviation.
    Gaussian {
        standard_deviation: f64,
    },
}
