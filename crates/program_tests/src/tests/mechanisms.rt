//! Worked examples of each mechanism, at a site of 20 frames and at one of 8.

use super::{Row, served};
use esx_program::SITE;
use esx_types::Config;
use std::test::Fail;

const SMALL: Config = Config { frames: 8, ..SITE };

const MECHANISMS: [Row; 10] = [
    // pages of equal content share a frame, and part again
    Row {
        input: b"admit 0 2 6 1 1000 0\nstart 0\nread 0 0 0 16\npage 0 0\nsum\nadmit 1 2 6 1 1000 0\nstart 1\nwrite 0 1 0 2a\nwrite 1 0 0 2a\nscan 0 1\nscan 1 0\nsum\nwrite 1 0 0 2b\npage 1 0\npage 0 1\nread 0 1 0 1\n",
        output: b"ok memory 3/20 swap 4/8\nok frame 0 overhead 1/1 running\nok 00000000000000000000000000000000\nhere frame 1 private\noverhead 1 private 1 shared 0 free 18 high\nok memory 6/20 swap 8/8\nok frame 2 overhead 1/1 running\nok\nok\nok hinted\nok shared frame 3 count 2\noverhead 2 private 1 shared 1 free 16 high\nok\nhere frame 4 private\nhere frame 3 shared 1\nok 2a\n",
    },
    // there and back over shared pages
    Row {
        input: b"admit 0 2 6 1 1000 0\nstart 0\nread 0 0 0 16\npage 0 0\nsum\nadmit 1 2 6 1 1000 0\nstart 1\nwrite 0 1 0 2a\nwrite 1 0 0 2a\nscan 0 1\nscan 1 0\nsum\nwrite 1 0 0 2b\npage 1 0\npage 0 1\nread 0 1 0 1\nundo 3\nsum\nredo 3\nsum\npage 1 0\n",
        output: b"ok memory 3/20 swap 4/8\nok frame 0 overhead 1/1 running\nok 00000000000000000000000000000000\nhere frame 1 private\noverhead 1 private 1 shared 0 free 18 high\nok memory 6/20 swap 8/8\nok frame 2 overhead 1/1 running\nok\nok\nok hinted\nok shared frame 3 count 2\noverhead 2 private 1 shared 1 free 16 high\nok\nhere frame 4 private\nhere frame 3 shared 1\nok 2a\nat 8 depth 8 jumps 1\noverhead 2 private 3 shared 0 free 15 high\nat 11 depth 11 jumps 2\noverhead 2 private 2 shared 1 free 15 high\nhere frame 4 private\n",
    },
    // a hint is stale once its page was written
    Row {
        input: b"admit 0 2 6 1 1000 0\nstart 0\nread 0 0 0 16\npage 0 0\nsum\nwrite 0 1 0 2a\nscan 0 1\nwrite 0 1 0 2b\nwrite 0 2 0 2a\nscan 0 2\npage 0 1\npage 0 2\n",
        output: b"ok memory 3/20 swap 4/8\nok frame 0 overhead 1/1 running\nok 00000000000000000000000000000000\nhere frame 1 private\noverhead 1 private 1 shared 0 free 18 high\nok\nok hinted\nok\nok\nok stale\nhere frame 2 private\nhere frame 3 private hint\n",
    },
    // two contents whose keys have one short
    Row {
        input: b"admit 0 2 6 1 1000 0\nstart 0\nwrite 0 0 0 00000000000095280000000000000000\nwrite 0 1 0 000000000000e6ff0000000000000000\nscan 0 0\nscan 0 1\npage 0 0\npage 0 1\nwrite 0 2 6 9528\nscan 0 2\nsum\n",
        output: b"ok memory 3/20 swap 4/8\nok frame 0 overhead 1/1 running\nok\nok\nok hinted\nok clash\nhere frame 1 private hint\nhere frame 2 private\nok\nok shared frame 1 count 2\noverhead 1 private 1 shared 1 free 17 high\n",
    },
    // sampled activity
    Row {
        input: b"admit 0 2 6 1 1000 0\nstart 0\nread 0 0 0 16\npage 0 0\nsum\nsample 0 2 0 1 2 3\nread 0 0 0 1\nvm 0\nread 0 0 0 1\nvm 0\nsample 0 1 0 6\nread 0 0 0 1\nvm 0\n",
        output: b"ok memory 3/20 swap 4/8\nok frame 0 overhead 1/1 running\nok 00000000000000000000000000000000\nhere frame 1 private\noverhead 1 private 1 shared 0 free 18 high\nok period 2 pages 4\nok 00\nslow 65536 fast 65536 active 65536 period 1/2 touched 1/4\nok 00\nslow 59392 fast 40960 active 59392 period 0/0 touched 0/0\nok period 1 pages 2\nok 00\nslow 60160 fast 53248 active 60160 period 0/0 touched 0/0\n",
    },
    // a machine leaves
    Row {
        input: b"admit 0 2 6 1 1000 0\nstart 0\nread 0 0 0 16\npage 0 0\nsum\ngone 0\nstop 0\nstop 0\nread 0 0 0 1\ngone 0\ndrop 0 6\ndrop 0 1\ndrop 0 0\ngone 0\nstart 0\nsum\nundo 3\npage 0 0\n",
        output: b"ok memory 3/20 swap 4/8\nok frame 0 overhead 1/1 running\nok 00000000000000000000000000000000\nhere frame 1 private\noverhead 1 private 1 shared 0 free 18 high\nno 17 NotNeeded\nok\nno 6 NotRunning\nno 6 NotRunning\nno 18 PagesLeft\nno 7 OutOfRange\nno 17 NotNeeded\nok\nok gone\nno 1 NoVm\noverhead 0 private 0 shared 0 free 20 high\nat 3 depth 3 jumps 1\nhere frame 1 private\n",
    },
    // what is tried leaves nothing behind
    Row {
        input: b"undo 1\nadmit 0 2 6 1 1000 0\nstart 0\nundo 3\nprune 1\nwhatif read 0 0 0 1; read 0 9 0 1; read 0 1 0 1\nwhere\nread 0 0 0 1\nwhere\n",
        output: b"no 19 NothingToUndo\nok memory 3/20 swap 4/8\nok frame 0 overhead 1/1 running\nno 19 NothingToUndo\nno 24 OnPath\nwhatif 1/3\nbefore overhead 1 private 0 shared 0 free 19 high\n1 ok 00\n2 no 7 OutOfRange\nafter overhead 1 private 1 shared 0 free 18 high\nat 2 depth 2 jumps 0\nok 00\nat 3 depth 3 jumps 0\n",
    },
    // branches, and one that is pruned
    Row {
        input: b"admit 0 2 6 1 1000 0\nstart 0\nundo 1\nstart 0\nundo 1\nredo 1\ngoto 2\nundo 1\nredo 1\nundo 1\nprune 2\nredo 1\ngoto 2\ngoto 3\n",
        output: b"ok memory 3/20 swap 4/8\nok frame 0 overhead 1/1 running\nat 1 depth 1 jumps 1\nok frame 0 overhead 1/1 running\nat 1 depth 1 jumps 2\nat 3 depth 2 jumps 3\nat 2 depth 2 jumps 4\nat 1 depth 1 jumps 5\nat 2 depth 2 jumps 6\nat 1 depth 1 jumps 7\nok pruned 1\nno 20 NothingToRedo\nno 21 NoSuchNode\nat 3 depth 2 jumps 8\n",
    },
    // names of nodes
    Row {
        input: b"admit 0 2 6 1 1000 0\nstart 0\nmark base\nmark base\nmark Base\nread 0 0 0 1\nundo 2\nprune 0\nprune 2\nvisit base\nvisit none\nmarks\nredo 1\n",
        output: b"ok memory 3/20 swap 4/8\nok frame 0 overhead 1/1 running\nok mark base at 2\nno 22 NameTaken\n? line 5\nok 00\nat 1 depth 1 jumps 1\nno 24 OnPath\nok pruned 2\nno 21 NoSuchNode\nno 23 NoSuchName\nmarks 1\nbase 2\nno 20 NothingToRedo\n",
    },
    // a table
    Row {
        input: b"admit 0 2 6 1 1000 0\nstart 0\nread 0 0 0 16\npage 0 0\nsum\ntable\n",
        output: b"ok memory 3/20 swap 4/8\nok frame 0 overhead 1/1 running\nok 00000000000000000000000000000000\nhere frame 1 private\noverhead 1 private 1 shared 0 free 18 high\n vm state        min     max  target    here    lent     out  shares  active\n  0 running        2       6       6       1       0       0    1000   65536\noverhead 1 private 1 shared 0 free 18 high\n",
    },
];

const SCARCE: [Row; 9] = [
    // a balloon, and its reset
    Row {
        input: b"admit 0 2 8 1 1000 4\nstart 0\nread 0 0 0 1\nread 0 1 0 1\nread 0 2 0 1\nread 0 3 0 1\nread 0 4 0 1\nrebalance\nask 0\nlend 0 4\nlend 0 3\nlend 0 3\nwrite 0 4 2 7f\nread 0 4 0 4\npage 0 4\nask 0\ntakeback 0 3\nask 0\nread 0 3 0 1\npage 0 3\n",
        output: b"ok memory 3/8 swap 6/8\nok frame 0 overhead 1/1 running\nok 00\nok 00\nok 00\nok 00\nok 00\nok need 3 revoked 3\nok goal 4 lent 0 epoch 0\nok lent 1 goal 4\nok lent 2 goal 4\nno 12 LentAlready\nok\nok 00007f00\nhere frame 4 private\nreset epoch 1\nno 11 NotLent\nok goal 4 lent 0 epoch 1\nok 00\nhere frame 5 private\n",
    },
    // a loan over the goal
    Row {
        input: b"admit 0 2 8 1 1000 4\nstart 0\nlend 0 0\n",
        output: b"ok memory 3/8 swap 6/8\nok frame 0 overhead 1/1 running\nno 10 OverGoal\n",
    },
    // a reset is undone
    Row {
        input: b"admit 0 2 8 1 1000 4\nstart 0\nread 0 0 0 1\nread 0 1 0 1\nread 0 2 0 1\nread 0 3 0 1\nread 0 4 0 1\nrebalance\nask 0\nlend 0 4\nlend 0 3\nlend 0 3\nwrite 0 4 2 7f\nread 0 4 0 4\npage 0 4\nask 0\nundo 1\npage 0 3\ntakeback 0 3\npage 0 3\nwhere\n",
        output: b"ok memory 3/8 swap 6/8\nok frame 0 overhead 1/1 running\nok 00\nok 00\nok 00\nok 00\nok 00\nok need 3 revoked 3\nok goal 4 lent 0 epoch 0\nok lent 1 goal 4\nok lent 2 goal 4\nno 12 LentAlready\nok\nok 00007f00\nhere frame 4 private\nreset epoch 1\nat 13 depth 13 jumps 1\nlent\nreset epoch 1\nuntouched\nat 15 depth 14 jumps 1\n",
    },
    // paging begins where ballooning is not possible
    Row {
        input: b"admit 0 2 8 1 1000 0\nstart 0\nread 0 0 0 1\nread 0 1 0 1\nread 0 2 0 1\nread 0 3 0 1\nread 0 4 0 1\nswapout 0 7\nrebalance\nswapout 0 7\nswapout 0 7\nswapout 0 7\nswapout 0 7\n",
        output: b"ok memory 3/8 swap 6/8\nok frame 0 overhead 1/1 running\nok 00\nok 00\nok 00\nok 00\nok 00\nno 14 AtTarget\nok need 3 revoked 3\nok out 2 slot 0\nok out 4 slot 1\nok out 1 slot 2\nno 13 NotNow high\n",
    },
    // a balloon comes before paging
    Row {
        input: b"admit 0 2 8 1 1000 4\nstart 0\nread 0 0 0 1\nread 0 1 0 1\nread 0 2 0 1\nread 0 3 0 1\nswapout 0 0\nread 0 4 0 1\nswapout 0 0\n",
        output: b"ok memory 3/8 swap 6/8\nok frame 0 overhead 1/1 running\nok 00\nok 00\nok 00\nok 00\nno 13 NotNow high\nok 00\nno 13 NotNow soft\n",
    },
    // a page makes room for another
    Row {
        input: b"admit 0 3 6 1 1000 0\nadmit 1 3 6 1 1000 0\nstart 0\nstart 1\nwrite 0 0 0 aa\nread 0 1 0 1\nread 0 2 0 1\nread 1 0 0 1\nread 1 1 0 1\nread 1 2 0 1\nread 0 3 0 1\nadvise 0 3\nreplace 0 3 1\nread 0 3 0 1\nreplace 0 1 0\npage 0 0\nreplace 0 0 1\nread 0 0 0 1\nreplace 0 0 1\n",
        output: b"ok memory 4/8 swap 3/8\nok memory 8/8 swap 6/8\nok frame 0 overhead 1/1 running\nok frame 1 overhead 1/1 running\nok\nok 00\nok 00\nok 00\nok 00\nok 00\nno 9 Short\nreplace\nok out 1 slot 0 frame 3\nok 00\nok out 0 slot 0 frame 2\nout slot 0\nok out 2 slot 0 frame 4\nok aa\nno 17 NotNeeded\n",
    },
    // a page that goes out shares a frame where it can
    Row {
        input: b"admit 0 1 6 1 1000 0\nadmit 1 1 4 1 1000 0\nstart 0\nstart 1\nwrite 0 0 0 2a\nwrite 1 0 0 2a\nscan 1 0\nread 0 1 0 1\nread 0 2 0 1\nrebalance\nswapout 0 0\nsum\nswapout 0 0\npage 1 0\nundo 2\nsum\npage 1 0\nredo 2\npage 0 0\n",
        output: b"ok memory 2/8 swap 5/8\nok memory 4/8 swap 8/8\nok frame 0 overhead 1/1 running\nok frame 1 overhead 1/1 running\nok\nok\nok hinted\nok 00\nok 00\nok need 3 revoked 2\nok shared 0 frame 3\noverhead 2 private 2 shared 1 free 3 soft\nok out 0 slot 0\nhere frame 3 shared 1\nat 10 depth 10 jumps 1\noverhead 2 private 4 shared 0 free 2 soft\nhere frame 3 private hint\nat 12 depth 12 jumps 2\nout slot 0\n",
    },
    // of two machines that are alike and partly idle the one with the higher tax loses pages first
    Row {
        input: b"admit 0 1 5 1 1000 0\nadmit 255 1 5 1 1000 0 76\nstart 0\nstart 255\nread 0 0 0 1\nread 0 1 0 1\nread 0 2 0 1\nread 255 0 0 1\nread 255 1 0 1\nread 255 2 0 1\nsample 0 1 4\nread 0 0 0 1\nsample 255 1 4\nread 255 0 0 1\nrebalance\nadvise 0 3\nvmtax 255 75\nadvise 0 3\nundo 1\nadvise 0 3\n",
        output: b"ok memory 2/8 swap 4/8\nok memory 4/8 swap 8/8\nok frame 0 overhead 1/1 running\nok frame 1 overhead 1/1 running\nok 00\nok 00\nok 00\nok 00\nok 00\nok 00\nok period 1 pages 1\nok 00\nok period 1 pages 1\nok 00\nok need 5 revoked 4\nswapout 255\nok\nswapout 0\nat 15 depth 15 jumps 1\nswapout 255\n",
    },
    // a page that waits gets on by four advised events
    Row {
        input: b"admit 0 1 8 1 1000 0\nstart 0\nread 0 0 0 1\nread 0 1 0 1\nread 0 2 0 1\nread 0 3 0 1\nread 0 4 0 1\nread 0 5 0 1\nread 0 6 0 1\nsum\nread 0 7 0 1\nadvise 0 7\nrebalance\nread 0 7 0 1\nadvise 0 7\nswapout 0 0\nswapout 0 0\nswapout 0 0\nsum\nadvise 0 7\nread 0 7 0 1\npage 0 7\n",
        output: b"ok memory 2/8 swap 7/8\nok frame 0 overhead 1/1 running\nok 00\nok 00\nok 00\nok 00\nok 00\nok 00\nok 00\noverhead 1 private 7 shared 0 free 0 low\nno 9 Short\nrebalance\nok need 5 revoked 5\nno 8 Held\nswapout 0\nok out 0 slot 0\nok out 1 slot 1\nok out 2 slot 2\noverhead 1 private 4 shared 0 free 3 hard\ngo\nok 00\nhere frame 1 private\n",
    },
];

#[test]
fn mechanisms(rt: HostRuntime) -> Result<(), Fail> {
    for row in &MECHANISMS {
        let (result, bytes) = served(rt.alloc(), SITE, row.input, 4096);
        assert!(rt; result.is_ok());
        assert!(rt; bytes.as_slice() == row.output);
    }
    Ok(())
}

#[test]
fn scarce(rt: HostRuntime) -> Result<(), Fail> {
    for row in &SCARCE {
        let (result, bytes) = served(rt.alloc(), SMALL, row.input, 4096);
        assert!(rt; result.is_ok());
        assert!(rt; bytes.as_slice() == row.output);
    }
    Ok(())
}
