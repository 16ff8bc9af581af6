// The opcodes: their names, as one text with an offset for each, and the arm of document 000 that prints each. The tables are lent.
ghost use Rattle.std.specs.Prelude.{◌≡◌};
ghost use Rattle.text.specs.Code.{Room, Put};
ghost use Rattle.names.specs.Opcodes.{mnemonics, mnemonic, arms, arm_of};

use crate::Arm;
use text::words::{Table, Words};

// How many opcodes there are.
pub const OPCODES: usize = 176;

// The mnemonics, in the order of the opcodes.
#[derive(Drop)]
pub struct MnemonicWords;

impl Words for MnemonicWords {
    ghost words = { mnemonics };
}

pub type MnemonicTable = Table<MnemonicWords, 1007, 177>;

#[tactic(auto, unfolding(crate::specs::Opcodes::mnemonics, crate::specs::Opcodes::opcodes))]
pub fn mnemonics() -> MnemonicTable {
    Table::new(
        *b"jmpcalljecxzlooploopzloopnzjojnojbjnbjzjnzjnajajsjnsjpjnpjljgejlejgxbeginmovaddoradcsbbandsubxorcmptestpushpopincdecnegnotfxsavefxrstormovapsmovqmovlpsmovhpsmovlpdmovhpdmovntsdcvtsi2sscvtsi2sdcvtsd2sicvttsd2sipextrqpinsrqldsleslfslgsjmpfcallfmovscmpsinsoutshresetlslprefetchntaprefetch0prefetch1prefetch2prefetchwinvlpgclflushclflushoptclwbsgdtsidtlgdtlidtlssnopmonitormonitorxmwaitxmwaitinvlpgbrdpruscasstoslodspsmashpvalidatermpadjustrmpupdateincsspwrsswrusspblendvbblendvpsblendvpdsha256rnds2leapushfaamaadfeni8087_nopfdisi8087_nopfsetpm287_nopfcomfcompficomficompfaddfmulfsubfsubrfdivfdivrfaddpfmulpfsubrpfsubpfdivpfdivrpfiaddfimulfisubfisubrfidivfidivrfcmovbfcmovefcmovbefcmovufcmovnbfcmovnefcmovnbefcmovnufucomifcomifucomipfcomipfbldfldfildfxchfucomfucompfbstpfstfstpfistfistpfisttpvpscatterddvpscatterqdvpscatterdqvpscatterqqvcvtpd2psvcvttpd2udqvcvtpd2udqvcvtudq2pdvcvtps2pdvcvtqq2psvcvtdq2pdvcvttpd2dqvfpclasspsvfpclasspdvcvtneps2bf16vcvtuqq2psvcvtpd2dqvcvttps2uqqvcvtps2uqqvcvttps2qqvcvtps2qqvaddpd",
        [
            0, 3, 7, 12, 16, 21, 27, 29, 32, 34, 37, 39, 42, 45, 47, 49, 52, 54, 57, 59, 62, 65,
            67, 73, 76, 79, 81, 84, 87, 90, 93, 96, 99, 103, 107, 110, 113, 116, 119, 122, 128,
            135, 141, 145, 151, 157, 163, 169, 176, 184, 192, 200, 209, 215, 221, 224, 227, 230,
            233, 237, 242, 246, 250, 253, 257, 263, 266, 277, 286, 295, 304, 313, 319, 326, 336,
            340, 344, 348, 352, 356, 359, 362, 369, 377, 383, 388, 395, 400, 404, 408, 412, 418,
            427, 436, 445, 451, 455, 460, 468, 476, 484, 495, 498, 503, 506, 509, 521, 534, 547,
            551, 556, 561, 567, 571, 575, 579, 584, 588, 593, 598, 603, 609, 614, 619, 625, 630,
            635, 640, 646, 651, 657, 663, 669, 676, 682, 689, 696, 704, 711, 717, 722, 729, 735,
            739, 742, 746, 750, 755, 761, 766, 769, 773, 777, 782, 788, 799, 810, 821, 832, 841,
            852, 862, 872, 881, 890, 899, 909, 919, 929, 942, 952, 961, 972, 982, 992, 1001, 1007,
        ],
    )
}

// The arm of each opcode.
#[derive(Clone, Copy)]
pub struct Arms {
    by_opcode: [Arm; OPCODES],
    ghost are_arms: { by_opcode ≡ arms },
}

impl Arms {
    #[tactic(auto, unfolding(crate::specs::Opcodes::arms, crate::specs::Opcodes::opcodes))]
    pub fn new() -> Self {
        Arms {
            by_opcode: [
                Arm::Branch,
                Arm::Call,
                Arm::Branch,
                Arm::Branch,
                Arm::Branch,
                Arm::Branch,
                Arm::Branch,
                Arm::Branch,
                Arm::Branch,
                Arm::Branch,
                Arm::Branch,
                Arm::Branch,
                Arm::Branch,
                Arm::Branch,
                Arm::Branch,
                Arm::Branch,
                Arm::Branch,
                Arm::Branch,
                Arm::Branch,
                Arm::Branch,
                Arm::Branch,
                Arm::Branch,
                Arm::Xbegin,
                Arm::General,
                Arm::General,
                Arm::General,
                Arm::General,
                Arm::General,
                Arm::General,
                Arm::General,
                Arm::General,
                Arm::General,
                Arm::General,
                Arm::General,
                Arm::General,
                Arm::General,
                Arm::General,
                Arm::General,
                Arm::General,
                Arm::General,
                Arm::General,
                Arm::General,
                Arm::Qword,
                Arm::Qword,
                Arm::Qword,
                Arm::Qword,
                Arm::Qword,
                Arm::Qword,
                Arm::Qword,
                Arm::Qword,
                Arm::Mmword,
                Arm::Mmword,
                Arm::Qword,
                Arm::Qword,
                Arm::Lds,
                Arm::Lds,
                Arm::Lds,
                Arm::Lds,
                Arm::Jmpf,
                Arm::Callf,
                Arm::Movs,
                Arm::Cmps,
                Arm::Cmps,
                Arm::Cmps,
                Arm::Hreset,
                Arm::Lsl,
                Arm::Prefetch,
                Arm::Prefetch,
                Arm::Prefetch,
                Arm::Prefetch,
                Arm::Prefetch,
                Arm::Prefetch,
                Arm::Prefetch,
                Arm::Prefetch,
                Arm::Prefetch,
                Arm::Sgdt,
                Arm::Sgdt,
                Arm::Sgdt,
                Arm::Sgdt,
                Arm::Lss,
                Arm::Nop,
                Arm::Monitor,
                Arm::Monitor,
                Arm::Monitor,
                Arm::Mwait,
                Arm::Invlpgb,
                Arm::Rdpru,
                Arm::Scas,
                Arm::Scas,
                Arm::Lods,
                Arm::Psmash,
                Arm::Pvalidate,
                Arm::Pvalidate,
                Arm::Pvalidate,
                Arm::Incssp,
                Arm::Wrss,
                Arm::Wrss,
                Arm::Pblendvb,
                Arm::Pblendvb,
                Arm::Pblendvb,
                Arm::Pblendvb,
                Arm::Lea,
                Arm::Pushf,
                Arm::Aam,
                Arm::Aam,
                Arm::Feni,
                Arm::Fdisi,
                Arm::Fsetpm,
                Arm::Fcom,
                Arm::Fcom,
                Arm::Fcom,
                Arm::Fcom,
                Arm::Fadd,
                Arm::Fadd,
                Arm::Fadd,
                Arm::Fadd,
                Arm::Fadd,
                Arm::Fadd,
                Arm::Fadd,
                Arm::Fadd,
                Arm::Fadd,
                Arm::Fadd,
                Arm::Fadd,
                Arm::Fadd,
                Arm::Fadd,
                Arm::Fadd,
                Arm::Fadd,
                Arm::Fadd,
                Arm::Fadd,
                Arm::Fadd,
                Arm::Fadd,
                Arm::Fadd,
                Arm::Fadd,
                Arm::Fadd,
                Arm::Fadd,
                Arm::Fadd,
                Arm::Fadd,
                Arm::Fadd,
                Arm::Fadd,
                Arm::Fadd,
                Arm::Fadd,
                Arm::Fadd,
                Arm::Fbld,
                Arm::Fbld,
                Arm::Fbld,
                Arm::Fbld,
                Arm::Fbld,
                Arm::Fbld,
                Arm::Fbstp,
                Arm::Fbstp,
                Arm::Fbstp,
                Arm::Fbstp,
                Arm::Fbstp,
                Arm::Fbstp,
                Arm::ScatterDword,
                Arm::ScatterDword,
                Arm::ScatterQword,
                Arm::ScatterQword,
                Arm::Doubles,
                Arm::Doubles,
                Arm::Doubles,
                Arm::Doubles,
                Arm::Doubles,
                Arm::Doubles,
                Arm::Doubles,
                Arm::Doubles,
                Arm::Singles,
                Arm::Doubles,
                Arm::Singles,
                Arm::Doubles,
                Arm::Doubles,
                Arm::Doubles,
                Arm::Doubles,
                Arm::Doubles,
                Arm::Doubles,
                Arm::General,
            ],
        }
    }

    // The arm of an opcode; of a number that is no opcode, the general path's.
    #[tactic(auto, unfolding(crate::specs::Opcodes::arm_of))]
    pub fn of(&self, opcode: u16) -> Arm
        ensures { result ≡ arm_of opcode }
    {
        let at = opcode as usize;
        if at < OPCODES {
            self.by_opcode[at]
        } else {
            Arm::General
        }
    }
}

// The name of an opcode. A number that is no opcode has none.
#[tactic(auto, unfolding(crate::specs::Opcodes::mnemonic))]
pub fn put_mnemonic(buf: &mut [u8], at: usize, table: &MnemonicTable, opcode: u16) -> usize
    requires { Room buf.old at (mnemonic opcode) }
    ensures { Put buf.old at (mnemonic opcode) result buf.new }
{
    table.put(buf, at, opcode as usize)
}
