// The opcodes of the strip's operations. specs/Opcodes.antt has the table.
ghost use Rattle.std.specs.Prelude.{◌≡◌};
ghost use Rattle.spirv.specs.Opcodes.{op_of};

// An opcode of SPIR-V, or a number of GLSL.std.450.
#[derive(Clone, Copy)]
pub enum Op {
    Core(u32),
    Glsl(u32),
}

// Called from two places and therefore not built in, on purpose: built in it made the writer slower (docs/DECISIONS.md).
#[tactic(auto, unfolding(crate::specs::Opcodes::op_of))]
pub fn op_of(k: u8) -> Op
    ensures { result ≡ op_of k }
{
    match k {
        20 => Op::Core(200),
        21 => Op::Core(204),
        22 => Op::Core(205),
        23 => Op::Core(124),
        24 => Op::Core(124),
        25 => Op::Glsl(5),
        26 => Op::Glsl(74),
        27 => Op::Glsl(75),
        40 => Op::Core(128),
        41 => Op::Core(130),
        42 => Op::Core(132),
        43 => Op::Core(196),
        44 => Op::Core(194),
        45 => Op::Core(195),
        46 => Op::Core(199),
        47 => Op::Core(197),
        48 => Op::Core(198),
        49 => Op::Glsl(38),
        50 => Op::Glsl(39),
        51 => Op::Glsl(41),
        52 => Op::Glsl(42),
        60 => Op::Core(170),
        61 => Op::Core(171),
        62 => Op::Core(176),
        63 => Op::Core(178),
        64 => Op::Core(172),
        65 => Op::Core(174),
        66 => Op::Core(177),
        67 => Op::Core(179),
        68 => Op::Core(173),
        69 => Op::Core(175),
        80 => Op::Core(168),
        81 => Op::Core(167),
        82 => Op::Core(166),
        83 => Op::Core(165),
        90 => Op::Core(169),
        91 => Op::Core(203),
        92 => Op::Core(202),
        93 => Op::Core(201),
        _ => Op::Core(0),
    }
}
