//! What readers want and give. A block is a reader, by its kind, the number of its first row and its words (see `asked` and
//! `layouts`), a store (see `told`; `-` is none), and cases.
use crate::asked::told_by;
use crate::words::sides;
use std::alloc::Global;
use std::process::Abort;
use std::string::String;

/// The first of the cases of a block that come otherwise, and what came: none where all come as wanted.
fn otherwise(rt: &impl Abort, alloc: Global, block: &str) -> String {
    let (of, block) = sides(rt, block, "\n");
    let (store, cases) = sides(rt, block, "\n");
    for line in cases.lines() {
        let (case, wanted) = sides(rt, line, " -> ");
        let told = told_by(rt, alloc, of, store, case);
        if told.as_str() != wanted {
            return format!(in alloc; "{case}: {told}").expect(rt, "format");
        }
    }
    String::new(alloc)
}

// A row of a leaf waits for its segment alone, and a segment that is missing or of another length is no good; a null test of
// what is never null, and a literal, wait for nothing; a leaf in segments is filtered under its mask, and never pruned; a sum
// past its dtype overflows; the rows that a filter drops are not among those that are given, and a projection waits for the
// masks round it first.
const LEAVES: &str = "layout 0: i32@0:2,1:1
0=0100000002000000 1=03000000
$ | 001 run -> wants 1; gives [3] at [2]
$ | 001 poll 1 poll -> wants 1; gives [3] at [2]
$ | 001 1! poll -> corrupt 1
$ | all 0=010000 poll -> corrupt 0
$ | all 1=03 poll -> corrupt 1
$ | all 0 poll 1 poll -> wants 1; gives [1,2,3] at [0,1,2]
i32:1 | all poll -> gives [1,1,1] at [0,1,2]
$ is_null | 001 run -> gives [false] at [2]
rows where $ i32:1 > | 110 run -> wants 0; keeps 010
rows where $ i32:1 > | 110 poll 0 1 poll -> wants 0; keeps 010
rows where $ i32:1 > | 111 0=010000 poll -> corrupt 0
rows where prune $ i32:1 > | 110 poll -> keeps 110
rows where prune $ i32:1 > | 101 poll -> keeps 101
$ i32:2147483645 + | 110 run -> wants 0; gives [2147483646,2147483647] at [0,1]
$ i32:2147483645 + | 011 run -> wants 0 1; overflows
$ where $ i32:1 > | all 0 1 poll -> gives [2,3] at [1,2]
$ under 110 $ i32:1 > | all poll 0 poll 1 poll -> wants 0; wants 1; gives [null,2,null] at [0,1,2]";

// A row is null where a struct at any level is; a whole struct is read by its fields, in the order in which they are chosen;
// a literal reads nothing; damage is seen in a column that is needed, though its struct is null there, and in no other; a
// filter reads no row that an earlier one dropped, nor sees its damage, and wants nothing more when it has run.
const STRUCTS: &str = "layout 0: bool@2:3 i32@0:3 i32@1:3 struct?:3:a,b
0=010000000200000003000000 1=040000000500000006000000 2=010001
$ get:a | 111 run -> wants 0 2; gives [1,null,3] at [0,1,2]
$ select:b,a | 110 run -> wants 1 0 2; gives [{4,1},null] at [0,1]
i32:1 | 010 run -> gives [1] at [1]

layout 0: bool@3:3 bool@2:3 i32@0:3 i32@1:3 struct?:3:a,b struct?:3:s
0=010000000200000003000000 1=040000000500000006000000 2=010001 3=010100
$ get:s get:a | 111 run -> wants 0 1 2 3; gives [1,null,null] at [0,1,2]

layout 0: i32@0:3 i32@1:3 struct:3:a,b
0=010000000200000003000000 1=040000000500000006000000
$ | 010 run -> wants 0 1; gives [{2,5}] at [1]
$ select:b,a | 101 run -> wants 1 0; gives [{4,1},{6,3}] at [0,2]

layout 0: i32@0:3 i32@0:3 struct:3:0,1
0=010000000200000003000000
$ | 010 run -> wants 0; gives [{2,2}] at [1]

layout 0: bool@2:3 i32@0:3 i32@1:3 struct?:3:a,b
0=010000000200000003000000 2=010001
$ get:a | 111 1 run -> wants 0 2; gives [1,null,3] at [0,1,2]

layout 0: bool@2:3 i32@0:3 i32@1:3 struct?:3:a,b
0=0100000002000000030000 2=010001
$ get:a | 111 run -> wants 0 2; corrupt 0

layout 0: bool@0:3 i32@1:2,3:1 struct:3:a,b
0=010100 1=0400000005000000
rows where $ get:a then $ get:b i32:4 > | 111 run -> wants 0; wants 1; keeps 010

layout 0: i32@0:3 i32@1:3 struct:3:a,b
0=010000000200000003000000 1=0a00
rows where $ get:a i32:100 > then $ get:b i32:10 = | 111 run -> wants 0; keeps 000

layout 0: i32@0:2,1:1 i32@2:3 struct:3:a,b
0=0100000002000000 1=03000000 2=050000000100000007000000
rows where $ get:a i32:1 > then $ get:b i32:1 > | 111 0 1 poll anew 2 poll -> wants 2; keeps 001

layout 0: u64@0:2 utf8?@1:2 utf8@2:2 u32@3:3 list struct:2:id,name,tags
0=07000000000000000900000000000000 1=01000300000041646100000000 2=010000007802000000797a 3=000000000200000002000000
$ where $ get:name is_not_null | 11 run -> wants 1; wants 0 3; wants 2; gives [{7,Ada,[x,yz]}] at [0]";

// A list reads the elements between its offsets, which it waits for, unless all lists are asked for; a null test reads the
// validity alone, a length the offsets and the validity; a literal over lists that may be null reads the validity; a filter
// under no row reads nothing; lists that are null have no elements; a list of a null struct is null.
const LISTS: &str = "layout 0: i32@13:2,14:3,15:4 u32@10:5 list
10=0000000002000000020000000500000009000000 14=0c0000000d0000000e000000
$ | 0110 run -> wants 10; wants 14; gives [[],[12,13,14]] at [1,2]

layout 0: i32@13:5 u32@10:4 list
10=00000000020000000200000005000000 13=0100000002000000030000000400000005000000
$ | 111 run -> wants 10 13; gives [[1,2],[],[3,4,5]] at [0,1,2]
$ | 110 run -> wants 10; wants 13; gives [[1,2],[]] at [0,1]

layout 0: i32@13:5 u32@10:4 bool@12:3 list?
10=00000000020000000200000005000000 12=010001
$ is_null | 111 run -> wants 12; gives [false,true,false] at [0,1,2]
$ length | 111 run -> wants 12 10; gives [2,null,3] at [0,1,2]
u8:7 | 101 run -> wants 12; gives [7,7] at [0,2]
rows where $ length u64:1 > | 000 run -> keeps 000

layout 0: i32@13:5 u32@10:4 list
10=00000000020000000200000005000000 12=010001
$ is_null | 101 run -> gives [false,false] at [0,2]
$ length | 111 run -> wants 10; gives [2,0,3] at [0,1,2]
rows where $ length u64:0 > | 000 run -> keeps 000

layout 0: i32@ u32@10:3 bool@12:2 list?
10=000000000000000000000000 12=0000
$ | 11 run -> wants 12 10; gives [null,null] at [0,1]

layout 0: i32@ u32@10:1 list
10=00000000
$ | all run -> gives [] at []
$ |  run -> gives [] at []

layout 0: i32@13:5 u32@10:4 bool@12:3 list? struct:3:l
10=00000000020000000200000005000000 12=010001
$ get:l is_null | 111 run -> wants 12; gives [false,true,false] at [0,1,2]

layout 0: i32@13:5 u32@10:4 list struct:3:l
10=00000000020000000200000005000000 12=010001
$ get:l length | 111 run -> wants 10; gives [2,0,3] at [0,1,2]

layout 0: bool@2:3 i32@13:5 u32@10:4 list struct?:3:l
2=010001 10=00000000020000000300000005000000 13=0100000002000000030000000400000005000000
$ get:l | 110 run -> wants 10 2; wants 13; gives [[1,2],null] at [0,1]

layout 0: bool@3:3 bool@2:3 i32?@0:3 struct?:3:a u32@10:4 bool@12:3 list? struct?:3:l
3=010100 12=010001 10=00000000030000000300000003000000 2=010001 0=010100070000000800000009000000
$ | 111 3 12 10 2 0 run -> gives [{[{7},null,{null}]},{null},null] at [0,1,2]";

// Offsets come before elements, which are wanted between them, and lengths want offsets alone. Offsets that fall, pass the
// elements or are negative are damage of their segment.
const OFFSETS: &str = "layout 0: i32@0:2,1:1 i32@2:4 list
0=0100000002000000 1=03000000 2=00000000020000000200000003000000
$ | 001 poll 2 poll 1 poll -> wants 2; wants 1; gives [[3]] at [2]
$ | 010 2 poll -> gives [[]] at [1]
$ | all poll 1 poll 2 poll 0 poll -> wants 2 0 1; wants 2 0; wants 0; gives [[1,2],[],[3]] at [0,1,2]
$ | all 0 1 2=01000000020000000200000002000000 poll -> gives [[2],[],[]] at [0,1,2]
$ | 100 2=00000000020000000200000002000000 0 poll -> gives [[1,2]] at [0]
$ | all 2=00000000020000000200000002000000 0 poll 1! poll -> wants 1; corrupt 1
$ | 000 poll -> gives [] at []
$ | 001 2=00000000020000000200000001000000 poll -> corrupt 2
$ length | all poll 2 poll -> wants 2; gives [2,0,1] at [0,1,2]
$ length | all 2=00000000020000000200000004000000 poll -> corrupt 2

layout 0: i32@13:3 i32@10:2,11:1 list
13=010000000200000003000000
$ | 11 10=0000000002000000 11=03000000 13 poll -> gives [[1,2],[3]] at [0,1]
$ | 11 10=0000000003000000 11=02000000 13 poll -> corrupt 11
$ | 11 10=0000000003000000 11=04000000 13 poll -> corrupt 11
$ | 11 10=0000000004000000 11=04000000 13 poll -> corrupt 10
$ | 11 10=ffffffff00000000 11=03000000 13 poll -> corrupt 10";

// Rows are numbered from the offset on, within u64; a prune by row numbers is exact, and a filter by them leaves what it left;
// what reads numbers and rows is filtered and not pruned; rows in memory wait for nothing, and are never pruned; a leaf is
// read where a prune by row numbers left rows.
const NUMBERS: &str = "memory 5: i32 1,2,3
-
row_idx | all poll -> gives [5,6,7] at [0,1,2]
rows where prune row_idx u64:6 >= | 111 poll -> keeps 011
rows where prune row_idx u64:6 >= then row_idx u64:6 >= | 111 poll -> keeps 011
rows where prune row_idx u64:6 >= $ i32:1 > and | 111 poll -> keeps 111
rows where prune row_idx u64:6 >= $ i32:1 > and then row_idx u64:6 >= $ i32:1 > and | 111 poll -> keeps 011
rows where prune $ i32:1 > | 110 poll -> keeps 110
rows where prune $ i32:1 > then $ i32:1 > | 110 poll -> keeps 010
$ | all poll -> gives [1,2,3] at [0,1,2]

layout 5: i32@0:2,1:1
1=03000000
rows where prune row_idx u64:7 >= then $ i32:1 > | 111 run -> wants 1; keeps 001

memory 18446744073709551615: i32 1
-
$ | all poll -> RowOffset

memory 18446744073709551613: i32 1,2,3
-
$ | all poll -> RowOffset

memory 18446744073709551612: i32 1,2,3
-
row_idx | 001 poll -> gives [18446744073709551614] at [2]";

// A leaf is split where its segments end, an array in memory nowhere, a reader round another where that is; lists by their
// elements, but near no end; a struct by the fields of the masks, and by its validity; a range past the rows is refused
// before a mask.
const SPLITS: &str = "layout 0: i32@0:2,1:1
-
splits all 0,0,3 -> [2,3]
splits none 0,0,3 -> [2,3]
splits none 10,0,3 -> [12,13]
splits none 10,1,3 -> [12,13]
splits none 0,0,2 -> [2]

layout 0: i64@7:2,8:0,9:1
-
splits none 0,0,3 -> [2,3]
splits none 10,0,3 -> [12,13]
splits none 0,0,2 -> [2]
splits none 0,2,3 -> [3]
splits none 0,1,1 -> [1]

memory 0: i32 1,2,3
-
splits none 10,1,3 -> [13]

layout 5: i32@0:2,1:1
-
splits none 10,1,3 -> [12,13]

lent 5: i32@0:2,1:1
-
splits none 10,1,3 -> [12,13]

boxed 5: i32@0:2,1:1
-
splits none 10,1,3 -> [12,13]

layout 0: i64@0:50,0:50 i64@0:1000,0:1 list
-
splits none 0,0,1000 -> [500,1000]
splits none 0,0,500 -> [500]
splits none 7,0,501 -> [507,508]

layout 0: i64@0:1,0:998,0:1 i64@0:1000,0:1 list
-
splits none 0,0,1000 -> [1000]

layout 0: i64@0:2,0:1 i64@0:1,0:2 struct:3:a,b
-
splits all 0,0,3 -> [1,2,3]
splits a 0,0,3 -> [2,3]
splits b 0,0,3 -> [1,3]
splits none 0,0,3 -> [3]
splits c 0,0,4 -> Bounds
splits c 0,0,3 -> NoSuchField

layout 0: bool@0:2,0:1 i64@0:3 i64@0:1,0:2 struct?:3:a,b
-
splits a 0,0,3 -> [2,3]
splits b 0,0,3 -> [1,2,3]";

#[test]
fn readers_want_the_segments_of_what_they_give_number_their_rows_and_are_split(rt: HostRuntime) {
    for blocks in [LEAVES, STRUCTS, LISTS, OFFSETS, NUMBERS, SPLITS] {
        for block in blocks.split("\n\n") {
            let otherwise = otherwise(&rt, rt.alloc(), block);
            assert!(rt; otherwise.is_empty(), "{otherwise}");
        }
    }
}

// A reader, what is shown, and the text.
const SHOWN: &str = "layout 0: i32@0:2,1:1
shown $
plan of $ over i32
  evaluate $
    leaf i32, spelling 1, segments 0 (2), 1 (1)
evaluate $
  leaf i32, spelling 1, segments 0 (2), 1 (1)

layout 0: i32@0:2,1:1
shown $ i32:1 >
plan of ($ > 1 as i32) over i32
  evaluate ($ > 1 as i32)
    leaf i32, spelling 1, segments 0 (2), 1 (1)
evaluate ($ > 1 as i32)
  leaf i32, spelling 1, segments 0 (2), 1 (1)

memory 0: i32 1,2,3
shown $
plan of $ over i32
  evaluate $
    3 values in memory, i32
evaluate $
  3 values in memory, i32

layout 0: i32@0:2,1:1 i32@2:4 list
shown $
plan of $ over list(i32)
  evaluate $
    list(i32), offsets i32, spelling 1, segments 2 (4)
      evaluate $
        leaf i32, spelling 1, segments 0 (2), 1 (1)
evaluate $
  list(i32), offsets i32, spelling 1, segments 2 (4)
    evaluate $
      leaf i32, spelling 1, segments 0 (2), 1 (1)

layout 0: i32@0:2,1:1 i32@2:4 list
shown $ length
plan of list_length($) over list(i32)
  evaluate $ over lengths
    lengths, offsets i32, spelling 1, segments 2 (4)
evaluate $ over lengths
  lengths, offsets i32, spelling 1, segments 2 (4)

layout 0: i32@0:2,1:1
shown i32:1
plan of 1 as i32 over i32
  constant 1 as i32
constant 1 as i32";

#[test]
fn plans_are_shown(rt: HostRuntime) {
    for block in SHOWN.split("\n\n") {
        let (of, block) = sides(&rt, block, "\n");
        let (case, wanted) = sides(&rt, block, "\n");
        let told = told_by(&rt, rt.alloc(), of, "", case);
        assert!(rt; told.as_str() == wanted, "{told}");
    }
}
