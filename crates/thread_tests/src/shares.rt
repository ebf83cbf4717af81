use lane_shares::Shares;
use std::test::*;

#[test]
fn shares_of_a_lane(rt: HostRuntime) -> Result<(), Fail> {
    let (shares, mut issuer) = Shares::open(rt.alloc(), 8, 100).map_err(|_| "memory")?;
    assert_eq!(rt; (shares.look(&mut issuer), issuer.amount()), (8, 8));
    shares.issue(&mut issuer, 92);
    let mut part = shares.split(&mut issuer, 30);
    assert_eq!(rt; (issuer.amount(), part.amount()), (70, 30));
    let crumb = shares.split(&mut part, 30);
    assert_eq!(rt; (shares.look(&mut part), part.amount()), (100, 0));
    shares.join(&mut issuer, crumb);
    assert_eq!(rt; (shares.look(&mut issuer), issuer.amount()), (100, 100));
    Ok(())
}
