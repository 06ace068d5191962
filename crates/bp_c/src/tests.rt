//! Each call against the answer of its command, and buffers that are too short.
use super::*;
use std::test::Fail;

/// Three nights and four stays.
const PROBLEM: &[u8] = b"problem 1
nights 3
rooms 2 1 2
stays 4
stay 0 2 100 3
stay 1 3 150 1
stay 0 1 60 1
stay 2 3 40 5
end
";

/// The certificate of this problem with the least prices.
const CERTIFICATE: &[u8] = b"certificate 1
value 250
sell 0 1 1 1
prices 0 100 40
end
";

#[test]
fn numbers_are_solved_where_there_is_memory(rt: HostRuntime) -> Result<(), Fail> {
    let mut value = 0;
    let mut sell = [0; 4];
    let mut prices = [0; 3];
    let mut refused = Refusal { limit: 0, place: 0 };
    let status = bidprice_solve_numbers(
        rt.alloc(),
        &[2, 1, 2],
        &[0, 1, 0, 2],
        &[2, 3, 1, 3],
        &[100, 150, 60, 40],
        &[3, 1, 1, 5],
        &mut value,
        &mut sell,
        &mut prices,
        &mut refused,
    );
    assert!(rt; status == 0 && value == 250);
    assert!(rt; sell == [0, 1, 1, 1] && prices == [0, 100, 40]);
    Ok(())
}

#[test]
fn texts_are_answered_where_there_is_memory(rt: HostRuntime) -> Result<(), Fail> {
    let mut answer = [0; 1000];
    let mut written = 0;
    let checked = bidprice_check(rt.alloc(), PROBLEM, CERTIFICATE, &mut answer, &mut written);
    assert!(rt; checked == 0 && answer.starts_with(b"optimal 250\n") && written == 12);
    let solved = bidprice_solve(rt.alloc(), PROBLEM, &mut answer, &mut written);
    assert!(rt; solved == 0 && answer.starts_with(CERTIFICATE));
    let quoted = bidprice_group(rt.alloc(), PROBLEM, 1, 2, 1, &mut answer, &mut written);
    assert!(rt; quoted == 0 && answer.starts_with(b"displacement 110\n"));
    let asked = bidprice_group(rt.alloc(), PROBLEM, 1, 2, 0, &mut answer, &mut written);
    assert!(rt; asked == 2 && answer.starts_with(b"usage:\nbidprice check "));
    let judged = bidprice_judge(
        rt.alloc(),
        PROBLEM,
        b"journal 1\nend\n",
        &mut answer,
        &mut written,
    );
    assert!(rt; judged == 1 && answer.starts_with(b"illegal 0 opening\n"));
    let changes = b"scenarios 1\nscenario\nrooms 1 2 down 1\nend\n";
    let foreseen = bidprice_scenarios(rt.alloc(), PROBLEM, changes, &mut answer, &mut written);
    assert!(rt; foreseen == 0 && answer.starts_with(b"scenario 1 value 140 prices 0 110 40\n"));
    let sheeted = bidprice_sheet(rt.alloc(), PROBLEM, &mut answer, &mut written);
    assert!(rt; sheeted == 0 && answer.starts_with(b"night 0 price 0 "));
    Ok(())
}
