//! OpenType's tags of languages, beside what HarfBuzz 10.2.0 answers: each subtag of its table,
//! each variant, each name, script and place that it knows, and subtags that it has no row of.
use crate::unicode::comparing::assert_row;
use opentype_tags::language_tags;
use shape_buffer::buffer::{Language, hb_tag_t};
use std::process::Abort;

/// A name and its tags, spaces at their ends left out.
const ANSWERS: &str = "\
    aa=AFR;aae=SQI;aao=ARA;aat=SQI;ab=ABK;aba=;abh=ARA;abq=ABA;abs=CPP;abv=ARA;acf=FAN CPP;\
    acm=ARA;acq=ARA;acr=ACR MYN;acw=ARA;acx=ARA;acy=ACY ARA;ada=DNG;adf=ARA;adp=DZN;aeb=ARA;\
    aec=ARA;af=AFK;afb=ARA;afk=;afs=CPP;agu=MYN;agw=;ahg=AGW;aht=ATH;aig=CPP;aii=SWA SYR;\
    aiw=ARI;ajp=ARA;ajt=ARA;ak=AKA;akb=AKB BTK;aln=SQI;als=SQI;am=AMH;amf=HBN;amw=SYR;\
    an=ARG;aoa=CPP;apa=ATH;apc=ARA;apd=ARA;apj=ATH;apk=ATH;apl=ATH;apm=ATH;apw=ATH;ar=ARA;\
    arb=ARA;ari=;ark=;arn=MAP;arq=ARA;ars=ARA;ary=MOR ARA;arz=ARA;as=ASM;atj=RCR;atv=ALT;\
    auj=BBR;auz=ARA;av=AVR;avl=ARA;ay=AYM;ayc=AYM;ayh=ARA;ayl=ARA;ayn=ARA;ayp=ARA;ayr=AYM;\
    az=AZE;azb=AZB AZE;azd=NAH;azj=AZE;azn=NAH;azz=NAH;ba=BSH;bad=BAD0;bag=;bah=CPP;bai=BML;\
    bal=BLI;bau=;bbc=BBC BTK;bbj=BML;bbp=BAD0;bbr=;bbz=ARA;bcc=BLI;bch=;bci=BAU;bcl=BIK;\
    bcq=BCH;bcr=ATH;be=BEL;bea=ATH;beb=BTI;ber=BBR;bew=CPP;bfl=BAD0;bfq=BAD;bft=BLT;bfu=LAH;\
    bfy=BAG;bg=BGR;bgn=BLI;bgp=BLI;bgq=BGQ RAJ;bgr=QIN;bhb=BHI;bhk=BIK;bhr=MLG;bi=BIS CPP;\
    bil=;bin=EDO;biu=QIN;bjn=MLY;bjo=BAD0;bjq=MLG;bjs=CPP;bjt=BLN;bkf=;bko=BML;bla=BKF;\
    ble=BLN;blg=IBA;bli=;blk=BLK KRN;bln=BIK;blt=;bm=BMB;bmb=;bml=;bmm=MLG;bn=BEN;bo=TIB;\
    bpd=BAD0;bpl=CPP;bpq=CPP;bqi=LRC;bqk=BAD0;br=BRE;bra=BRI;brc=CPP;bri=;brm=;bs=BOS;bsh=;\
    btb=BTI;btd=BTD BTK;bti=;btj=MLY;btm=BTM BTK;bto=BIK;bts=BTS BTK;btx=BTX BTK;\
    btz=BTZ BTK;bum=BTI;bve=MLY;bvu=MLY;bwe=KRN;bxk=LUH;bxo=CPP;bxp=BTI;bxr=RBU;byn=BIL;\
    byv=BYV BML;bzc=MLG;bzj=CPP;bzk=CPP;ca=CAT;caa=MYN;cac=MYN;caf=CRR ATH;cak=CAK MYN;\
    cbk=CBK CPP;cbl=QIN;ccl=CPP;ccm=CPP;cco=CCHN;ccq=ARK;cdo=ZHS;ce=CHE;cek=QIN;cey=QIN;\
    cfm=HAL QIN;ch=CHA;chf=MYN;chg=;chh=;chj=CCHN;chk=CHK0;chm=HMA LMA;chn=CPP;\
    chp=CHP SAY ATH;chq=CCHN;chz=CCHN;ciw=OJB;cjy=ZHS;cka=QIN;ckb=KUR;ckn=QIN;cks=CPP;\
    ckt=CHK;ckz=MYN;clc=ATH;cld=SYR;cle=CCHN;clj=QIN;cls=SAN;clt=QIN;cmn=ZHS;cmr=QIN;\
    cnb=QIN;cnh=QIN;cnk=QIN;cnl=CCHN;cnp=ZHS;cnr=SRB;cnt=CCHN;cnu=BBR;cnw=QIN;co=COS;\
    coa=MLY;cob=MYN;coq=ATH;cpa=CCHN;cpe=CPP;cpf=CPP;cpi=CPP;cpx=ZHS;cqd=HMN;cqu=QUH QUZ;\
    cr=CRE;crh=CRT;cri=CPP;crj=ECR YCR CRE;crk=WCR YCR CRE;crl=ECR YCR CRE;crm=MCR LCR CRE;\
    crp=CPP;crr=;crs=CPP;crt=;crx=CRR ATH;cs=CSY;csa=CCHN;csh=QIN;csj=QIN;csl=;cso=CCHN;\
    csp=ZHS;csv=QIN;csw=NCR NHC CRE;csy=QIN;ctc=ATH;ctd=QIN;cte=CCHN;cth=QIN;ctl=CCHN;\
    cts=BIK;ctu=MYN;cu=CSL;cuc=CCHN;cv=CHU;cvn=CCHN;cwd=DCR TCR CRE;cy=WEL;czh=ZHS;czo=ZHS;\
    czt=QIN;da=DAN;dao=QIN;dap=NIS;dcr=CPP;de=DEU;den=SLA ATH;dep=CPP;dgo=DGO DGR;dgr=ATH;\
    dhd=MAW;dhv=;dib=DNK;dik=DNK;din=DNK;dip=DNK;diq=DIQ ZZA;diw=DNK;dje=DJR;djk=CPP;\
    djr=DJR0;dks=DNK;dng=DUN;dnk=;doi=DGR;drh=MNG;dri=;drw=DRI FAR;dsb=LSB;dty=NEP;dun=;\
    dup=MLY;dv=DIV DHV;dwk=KUI;dwu=DUJ;dwy=DUJ;dyu=JUL;dz=DZN;dzn=;ecr=;ee=EWE;ekk=ETI;\
    eky=KRN;el=ELL;emk=EMK MNK;emy=MYN;en=ENG;enb=KAL;enf=FNE;enh=TNE;eo=NTO;es=ESP;esg=GON;\
    esi=IPK;esk=IPK;et=ETI;eto=BTI;eu=EUQ;euq=;eve=EVN;evn=EVK;ewo=BTI;eyo=KAL;fa=FAR;\
    fab=CPP;fan=FAN0 BTI;far=;fat=FAT AKA;fbl=BIK;ff=FUL;ffm=FUL;fi=FIN;fil=PIL;fj=FJI;\
    flm=HAL QIN;fmp=FMP BML;fng=CPP;fo=FOS;fos=;fpe=CPP;fr=FRA;fub=FUL;fuc=FUL;fue=FUL;\
    fuf=FTA FUL;fuh=FUL;fui=FUL;fuq=FUL;fur=FRL;fuv=FUV FUL;fy=FRI;ga=IRI IRT;gaa=GAD;\
    gac=CPP;gad=;gae=;gal=;gan=ZHS;gar=;gaw=;gax=ORO;gaz=ORO;gbm=GAW;gce=ATH;gcf=CPP;\
    gcl=CPP;gcr=CPP;gd=GAE;gda=RAJ;ggo=GON;gha=BBR;ghc=IRT;ghk=KRN;gho=BBR;gib=CPP;gil=GIL0;\
    gju=RAJ;gkp=GKP KPL;gl=GAL;gld=NAN;gmz=;gn=GUA;gnb=QIN;gno=GON;gnw=GUA;gom=KOK;goq=CPP;\
    gox=BAD0;gpe=CPP;gro=;grr=BBR;grt=GRO;gru=SOG;gsw=ALS;gu=GUJ;gua=;gug=GUA;gui=GUA;\
    guk=GMZ;gul=CPP;gun=GUA;gv=MNX;gwi=ATH;gyn=CPP;ha=HAU;haa=ATH;hae=ORO;hai=HAI0;hak=ZHS;\
    hal=;har=HRI;hax=HAI0;hbn=;hca=CPP;hdn=HAI0;he=IWR;hea=HMN;hi=HIN;hji=MLY;hlt=QIN;\
    hma=HMN;hmc=HMN;hmd=HMD HMN;hme=HMN;hmg=HMN;hmh=HMN;hmi=HMN;hmj=HMN;hml=HMN;hmm=HMN;\
    hmp=HMN;hmq=HMN;hmr=QIN;hms=HMN;hmw=HMN;hmy=HMN;hmz=HMZ HMN;hne=CHH;hnj=HMN;hno=HND;\
    ho=HMO CPP;hoc=HO;hoi=ATH;hoj=HAR RAJ;hr=HRV;hra=QIN;hrm=HMN;hsb=USB;hsn=ZHS;ht=HAI CPP;\
    hu=HUN;huj=HMN;hup=ATH;hus=MYN;hwc=CPP;hy=HYE0 HYE;hyw=HYE;hz=HER;ia=INA;iby=IJO;\
    icr=CPP;id=IND MLY;ida=LUH;idb=CPP;ie=ILE;ig=IBO;igb=EBI;ihb=CPP;ii=YIM;ijc=IJO;ije=IJO;\
    ijn=IJO;ijs=IJO;ik=IPK;ike=INU INUK;ikt=INU;in=IND MLY;ing=ATH;inh=ING;io=IDO;iri=;\
    is=ISL;ism=;it=ITA;itz=MYN;iu=INU INUK;iw=IWR;ixl=MYN;ja=JAN;jac=MYN;jak=MLY;\
    jam=JAM CPP;jan=;jax=MLY;jbe=BBR;jbn=BBR;jgo=BML;ji=JII;jii=;jkm=KRN;jkp=KRN;jud=;jul=;\
    jv=JAV;jvd=CPP;jw=JAV;ka=KAT;kaa=KRK;kab=KAB0 BBR;kac=;kam=KMB;kar=KRN;kbd=KAB;kby=KNR;\
    kca=KHK KHS KHV;kcn=CPP;kdr=KRM;kdt=KUY;kea=KEA CPP;keb=;kek=KEK MYN;kex=KKN;kfa=KOD;\
    kfr=KAC;kfx=KUL;kfy=KMN;kg=KON0;kge=;kha=KSI;khb=XBD;khk=MNG;khn=;khs=;kht=KHT KHN;khv=;\
    ki=KIK;kis=;kiu=KIU ZZA;kj=KUA;kjb=MYN;kjh=KHA;kjp=KJP KRN;kjt=KRN;kk=KAZ;kkn=;kkz=ATH;\
    kl=GRN;klm=;kln=KAL;km=KHM;kmb=MBN;kmn=;kmo=;kmr=KUR;kms=;kmv=CPP;kmw=KMO;kn=KAN;\
    knc=KNR;kng=KON0;knj=MYN;knn=KOK;knr=;ko=KOR KOH;kod=;koh=;koi=KOP KOM;kop=;koy=ATH;\
    koz=;kpe=KPL;kpl=;kpp=KRN;kpv=KOZ KOM;kpy=KYK;kqs=KIS;kqy=KRT;kr=KNR;krc=KAR BAL;\
    kri=KRI CPP;krk=;krm=;krn=;krt=KNR;kru=KUU;ks=KSH;ksh=KSH0;ksi=;ksm=;kss=KIS;\
    ksw=KSW KRN;ktb=KEB;ktu=KON;ktw=ATH;ku=KUR;kui=;kul=;kuu=ATH;kuw=BAD0;kuy=;kv=KOM;\
    kvb=MLY;kvl=KRN;kvq=KVQ KRN;kvr=MLY;kvt=KRN;kvu=KRN;kvy=KRN;kw=COR;kww=CPP;kwy=KON0;\
    kxc=KMS;kxd=MLY;kxf=KRN;kxk=KRN;kxl=KUU;kxu=KUI;ky=KIR;kyk=;kyu=KYU KRN;la=LAT;lac=MYN;\
    lad=JUD;lah=;lak=;lam=;laz=;lb=LTZ;lbe=LAK;lbj=LDK;lbl=BIK;lce=MLY;lcf=MLY;ldi=KON0;\
    ldk=;lg=LUG;li=LIM;lif=LMB;lir=CPP;liw=MLY;liy=BAD0;lkb=LUH;lko=LUH;lks=LUH;lld=LAD;\
    lma=;lmb=;lmn=LAM;lmw=;ln=LIN;lna=BAD0;lnl=BAD0;lo=LAO;lou=CPP;lri=LUH;lrm=LUH;lrt=CPP;\
    lsb=;lsm=LUH;lt=LTH;ltg=LVI;lth=;lto=LUH;lts=LUH;lu=LUB;lus=MIZ QIN;luy=LUH;luz=LRC;\
    lv=LVI;lvi=;lvs=LVI;lwg=LUH;lzh=ZHT;lzz=LAZ;mai=MTH;maj=;mak=MKR;mam=MAM MYN;man=MNK;\
    map=;maw=;max=MLY CPP;mbf=CPP;mbn=;mch=;mcm=CPP;mcr=;mct=BTI;mde=;mdf=MOK;mdy=MLE;\
    men=MDE;meo=MLY;mfa=MFA MLY;mfb=MLY;mfe=MFE CPP;mfp=CPP;mg=MLG;mga=SGA;mh=MAH;mhc=MYN;\
    mhr=LMA;mhv=ARK;mi=MRI;min=MIN MLY;miz=;mk=MKD;mkn=CPP;mkr=;mku=MNK;ml=MAL MLR;mle=;\
    mln=;mlq=MLN MNK;mlr=;mmr=HMN;mn=MNG;mnc=MCH;mnd=;mng=;mnh=BAD0;mnk=MND MNK;mnp=ZHS;\
    mns=MAN;mnw=MON MONT;mnx=;mo=MOL ROM;mod=CPP;mok=;mop=MYN;mor=;mpe=MAJ;mqg=MLY;mr=MAR;\
    mrh=QIN;mrj=HMA;ms=MLY;msc=MNK;msh=MLG;msi=MLY CPP;mt=MTS;mth=;mtr=MAW;mts=;mud=CPP;\
    mui=MLY;mun=;mup=RAJ;muq=HMN;mvb=ATH;mve=MAW;mvf=MNG;mwk=MNK;mwq=QIN;mwr=MAW;\
    mww=MWW HMN;my=BRM;mym=MEN;myq=MNK;myv=ERZ;mzb=BBR;mzs=CPP;na=NAU;nag=NAG CPP;nan=ZHS;\
    nas=;naz=NAH;nb=NOR;nch=NAH;nci=NAH;ncj=NAH;ncl=NAH;ncr=;ncx=NAH;nd=NDB;ndb=;ndg=;\
    ne=NEP;nef=CPP;ng=NDG;ngl=LMW;ngm=CPP;ngo=SXT;ngr=;ngu=NAH;nhc=NAH;nhd=GUA;nhe=NAH;\
    nhg=NAH;nhi=NAH;nhk=NAH;nhm=NAH;nhn=NAH;nhp=NAH;nhq=NAH;nht=NAH;nhv=NAH;nhw=NAH;nhx=NAH;\
    nhy=NAH;nhz=NAH;niq=KAL;nis=;niv=GIL;njt=CPP;njz=NIS;nko=;nkx=IJO;nl=NLD;nla=BML;\
    nle=LUH;nln=NAH;nlv=NAH;nn=NYN;nnh=BML;nnz=BML;no=NOR;nod=NTA;npi=NEP;npl=NAH;nqo=NKO;\
    nr=NDB;nsk=NAS;nsm=;nsu=NAH;nto=;nue=BAD0;nuu=BAD0;nuz=NAH;nv=NAV ATH;nwe=BML;ny=CHI;\
    nyd=LUH;nyn=NKL;oc=OCI;oj=OJB;ojc=OJB;ojg=OJB;ojs=OCR OJB;ojw=OJB;okd=IJO;oki=KAL;\
    okm=KOH;okr=IJO;om=ORO;onx=CPP;oor=CPP;or=ORI;orc=ORO;orn=MLY;oro=;orr=IJO;ors=MLY;\
    ory=ORI;os=OSS;otw=OJB;oua=BBR;pa=PAN;paa=;pal=;pap=PAP0 CPP;pas=;pbt=PAS;pbu=PAS;\
    pce=PLG;pck=QIN;pcm=CPP;pdu=KRN;pea=CPP;pel=MLY;pes=FAR;pey=CPP;pga=ARA CPP;pi=PAL;\
    pih=PIH CPP;pil=;pis=CPP;pkh=QIN;pko=KAL;pl=PLK;plg=PLG0;plk=;pll=PLG;pln=CPP;plp=PAP;\
    plt=MLG;pml=CPP;pmy=CPP;poc=MYN;poh=POH MYN;pov=CPP;ppa=BAG;pre=CPP;prp=GUJ;prs=DRI FAR;\
    ps=PAS;pse=MLY;pst=PAS;pt=PTG;pub=QIN;puz=QIN;pwo=PWO KRN;pww=KRN;qu=QUZ;qub=QWH QUZ;\
    quc=QUC MYN;qud=QVI QUZ;quf=QUZ;qug=QVI QUZ;quh=QUH QUZ;quk=QUZ;qul=QUH QUZ;qum=MYN;\
    qup=QVI QUZ;qur=QWH QUZ;qus=QUH QUZ;quv=MYN;quw=QVI QUZ;qux=QWH QUZ;quy=QUZ;qva=QWH QUZ;\
    qvc=QUZ;qve=QUZ;qvh=QWH QUZ;qvi=QVI QUZ;qvj=QVI QUZ;qvl=QWH QUZ;qvm=QWH QUZ;qvn=QWH QUZ;\
    qvo=QVI QUZ;qvp=QWH QUZ;qvs=QUZ;qvw=QWH QUZ;qvz=QVI QUZ;qwa=QWH QUZ;qwc=QUZ;qwh=QWH QUZ;\
    qws=QWH QUZ;qwt=ATH;qxa=QWH QUZ;qxc=QWH QUZ;qxh=QWH QUZ;qxl=QVI QUZ;qxn=QWH QUZ;\
    qxo=QWH QUZ;qxp=QUZ;qxr=QVI QUZ;qxt=QWH QUZ;qxu=QUZ;qxw=QWH QUZ;rag=LUH;ral=QIN;rbb=PLG;\
    rbl=BIK;rcf=CPP;rif=RIF BBR;rki=ARK;rm=RMS;rmc=ROY;rmf=ROY;rml=ROY;rmn=ROY;rmo=ROY;rms=;\
    rmw=ROY;rmy=RMY ROY;rmz=ARK;rn=RUN;ro=ROM;rom=ROY;rop=CPP;rtc=QIN;ru=RUS;rue=RSY;rw=RUA;\
    rwr=MAW;sa=SAN;sad=;sah=YAK;sam=PAA;say=;sc=SRD;scf=CPP;sch=QIN;sci=CPP;sck=SAD;\
    scs=SCS SLA ATH;sd=SND;sdc=SRD;sdh=KUR;sdn=SRD;sds=BBR;se=NSM;seh=SNA;sek=ATH;sez=QIN;\
    sfm=SFM HMN;sg=SGO;sgc=KAL;sgo=;sgw=CHG;sh=BOS HRV SRB;shi=SHI BBR;shl=QIN;shu=ARA;\
    shy=BBR;si=SNH;sib=;sig=;siz=BBR;sjd=KSM;sjo=SIB;sjs=BBR;sk=SKY;skg=MLG;skr=SRK;sks=;\
    skw=CPP;sky=;sl=SLV;sla=;sm=SMO;sma=SSM;smd=MBN;smj=LSM;sml=;smn=ISM;sms=SKS;smt=QIN;\
    sn=SNA0;snb=IBA;snh=;so=SML;sog=;spv=ORI;spy=KAL;sq=SQI;sr=SRB;srb=;src=SRD;srk=;\
    srm=CPP;srn=CPP;sro=SRD;srs=ATH;ss=SWZ;ssh=ARA;ssl=;ssm=;st=SOT;sta=CPP;stv=SIG;su=SUN;\
    suq=SUR;sur=;sv=SVE;svc=CPP;sve=;sw=SWK;swb=CMR;swc=SWK;swh=SWK;swk=;swn=BBR;swv=MAW;\
    syc=SYR;ta=TAM;taa=ATH;taj=;taq=TAQ TMH BBR;tas=CPP;tau=ATH;tcb=ATH;tce=ATH;tch=CPP;\
    tcp=QIN;tcs=CPP;tcy=TUL;tcz=QIN;tdx=MLG;te=TEL;tec=KAL;tem=TMN;tez=BBR;tfn=ATH;tg=TAJ;\
    tgh=CPP;tgj=NIS;tgn=;tgr=;tgx=ATH;tgy=;th=THA;tht=ATH;thv=THV TMH BBR;thz=THZ TMH BBR;\
    ti=TGY;tia=BBR;tig=TGR;tjo=BBR;tk=TKM;tkg=MLG;tkm=;tl=TGL;tmg=CPP;tmh=TMH BBR;tmn=;\
    tmw=MLY;tn=TNA;tna=;tne=;tnf=DRI FAR;tng=;to=TGN;tod=TOD0;toi=TNG;toj=MYN;tol=ATH;\
    tor=BAD0;tpi=TPI CPP;tr=TRK;trf=CPP;trk=;tru=TUA SYR;ts=TSG;tsg=;tt=TAT;ttc=MYN;ttm=ATH;\
    ttq=TTQ TMH BBR;tua=;tul=;tuu=ATH;tuv=;tuy=KAL;tvy=CPP;tw=TWI AKA;txc=ATH;txy=MLG;\
    ty=THT;tyv=TUV;tzh=MYN;tzj=MYN;tzm=TZM BBR;tzo=TZO MYN;ubl=BIK;ug=UYG;uk=UKR;uki=KUI;\
    uln=CPP;unr=MUN;ur=URD;urk=MLY;usp=MYN;uz=UZB;uzn=UZB;uzs=UZB;vap=QIN;ve=VEN;vi=VIT;\
    vic=CPP;vit=;vkk=MLY;vkp=CPP;vkt=MLY;vls=FLE;vmw=MAK;vo=VOL;vro=VRO ETI;vsn=SAN;wa=WLN;\
    wag=;wbm=WA;wbr=WAG RAJ;wea=KRN;wes=CPP;weu=QIN;wlc=CMR;wle=SIG;wlk=ATH;wni=CMR;wo=WLF;\
    wry=MAW;wsg=GON;wuu=ZHS;wya=WDT WYN;xal=KLM TOD;xan=SEK;xbd=;xh=XHS;xmg=BML;xmm=MLY CPP;\
    xmv=MLG;xmw=MLG;xnj=SXT;xnq=SXT;xnr=DGR;xpe=XPE KPL;xsl=SSL SLA ATH;xst=SIG;xup=ATH;\
    xwo=TOD;yaj=BAD0;yak=;yba=;ybb=BML;ybd=ARK;ycr=CPP;ydd=JII;yi=JII;yih=JII;yim=;yo=YBA;\
    yos=QIN;yua=MYN;yue=ZHH;za=ZHA;zch=ZHA;zdj=CMR;zeh=ZHA;zen=BBR;zgb=ZHA;zgh=ZGH BBR;\
    zgm=ZHA;zgn=ZHA;zh=ZHS;zhd=ZHA;zhn=ZHA;zkb=KHA;zlj=ZHA;zlm=MLY;zln=ZHA;zlq=ZHA;zmi=MLY;\
    zmz=BAD0;znd=;zne=ZND;zom=QIN;zqe=ZHA;zsm=MLY;zu=ZUL;zum=LRC;zyb=ZHA;zyg=ZHA;zyj=ZHA;\
    zyn=ZHA;zyp=QIN;zzj=ZHA;und-fonnapa=APPH;und-polyton=PGR;und-arevmda=HYE;\
    und-provenc=PRO;und-fonipa=IPPH;und-geok=KGE;und-syre=SYRE;und-syrj=SYRJ;und-syrn=SYRN;\
    art-lojban=JBO;cdo-hant-hk=ZHH;cdo-hant-mo=ZHTM ZHH;cjy-hant-hk=ZHH;\
    cjy-hant-mo=ZHTM ZHH;cmn-hant-hk=ZHH;cmn-hant-mo=ZHTM ZHH;cnp-hant-hk=ZHH;\
    cnp-hant-mo=ZHTM ZHH;cpx-hant-hk=ZHH;cpx-hant-mo=ZHTM ZHH;csp-hant-hk=ZHH;\
    csp-hant-mo=ZHTM ZHH;czh-hant-hk=ZHH;czh-hant-mo=ZHTM ZHH;czo-hant-hk=ZHH;\
    czo-hant-mo=ZHTM ZHH;cdo-hans=ZHS;cdo-hant=ZHT;cjy-hans=ZHS;cjy-hant=ZHT;cmn-hans=ZHS;\
    cmn-hant=ZHT;cnp-hans=ZHS;cnp-hant=ZHT;cpx-hans=ZHS;cpx-hant=ZHT;csp-hans=ZHS;\
    csp-hant=ZHT;czh-hans=ZHS;czh-hant=ZHT;czo-hans=ZHS;czo-hant=ZHT;cdo-aa-hk=ZHH;\
    cdo-aa-mo=ZHTM ZHH;cdo-aa-tw=ZHT;cjy-aa-hk=ZHH;cjy-aa-mo=ZHTM ZHH;cjy-aa-tw=ZHT;\
    cmn-aa-hk=ZHH;cmn-aa-mo=ZHTM ZHH;cmn-aa-tw=ZHT;cnp-aa-hk=ZHH;cnp-aa-mo=ZHTM ZHH;\
    cnp-aa-tw=ZHT;cpx-aa-hk=ZHH;cpx-aa-mo=ZHTM ZHH;cpx-aa-tw=ZHT;csp-aa-hk=ZHH;\
    csp-aa-mo=ZHTM ZHH;csp-aa-tw=ZHT;czh-aa-hk=ZHH;czh-aa-mo=ZHTM ZHH;czh-aa-tw=ZHT;\
    czo-aa-hk=ZHH;czo-aa-mo=ZHTM ZHH;czo-aa-tw=ZHT;gan-hant-hk=ZHH;gan-hant-mo=ZHTM ZHH;\
    gan-hans=ZHS;gan-hant=ZHT;ga-latg=IRT;gan-aa-hk=ZHH;gan-aa-mo=ZHTM ZHH;gan-aa-tw=ZHT;\
    hak-hant-hk=ZHH;hak-hant-mo=ZHTM ZHH;hsn-hant-hk=ZHH;hsn-hant-mo=ZHTM ZHH;hak-hans=ZHS;\
    hak-hant=ZHT;hsn-hans=ZHS;hsn-hant=ZHT;hak-aa-hk=ZHH;hak-aa-mo=ZHTM ZHH;hak-aa-tw=ZHT;\
    hsn-aa-hk=ZHH;hsn-aa-mo=ZHTM ZHH;hsn-aa-tw=ZHT;i-navajo=NAV ATH;i-hak=ZHS;i-lux=LTZ;\
    lzh-hans=ZHS;mnp-hant-hk=ZHH;mnp-hant-mo=ZHTM ZHH;mnp-hans=ZHS;mnp-hant=ZHT;\
    mnp-aa-hk=ZHH;mnp-aa-mo=ZHTM ZHH;mnp-aa-tw=ZHT;mnw-aa-th=MONT;nan-hant-hk=ZHH;\
    nan-hant-mo=ZHTM ZHH;nan-hans=ZHS;nan-hant=ZHT;nan-aa-hk=ZHH;nan-aa-mo=ZHTM ZHH;\
    nan-aa-tw=ZHT;no-bok=NOR;no-nyn=NYN;ro-aa-md=MOL ROM;wuu-hant-hk=ZHH;\
    wuu-hant-mo=ZHTM ZHH;wuu-hans=ZHS;wuu-hant=ZHT;wuu-aa-hk=ZHH;wuu-aa-mo=ZHTM ZHH;\
    wuu-aa-tw=ZHT;yue-hans=ZHS;zh-hant-hk=ZHH;zh-hant-mo=ZHTM ZHH;zh-min-nan=ZHS;\
    zh-hans=ZHS;zh-hant=ZHT;zh-min=ZHS;zh-aa-hk=ZHH;zh-aa-mo=ZHTM ZHH;zh-aa-tw=ZHT;qaq=QAQ;\
    qbq=QBQ;qcq=QCQ;qdq=QDQ;qeq=QEQ;qfq=QFQ;qgq=QGQ;qhq=QHQ;qiq=QIQ;qjq=QJQ;qkq=QKQ;qlq=QLQ;\
    qmq=QMQ;qnq=QNQ;qoq=QOQ;qpq=QPQ;qqq=QQQ;qrq=QRQ;qsq=QSQ;qtq=QTQ;quq=QUQ;qvq=QVQ;qwq=QWQ;\
    qxq=QXQ;qyq=QYQ;qzq=QZQ;";

/// Appends a tag, without the spaces that fill it up.
fn push_tag(rt: &impl Abort, text: &mut String, tag: hb_tag_t) {
    for byte in tag.0.to_be_bytes() {
        if byte != b' ' {
            text.push(char::from(byte)).expect(rt, "memory");
        }
    }
}

/// The tags of a language, with spaces between them.
fn tags_of(rt: &(impl Abort + AllocGlobal), name: &str) -> String {
    let mut text = String::new(rt.alloc());
    let language = Language(String::from_str(rt.alloc(), name).expect(rt, "memory"));
    for tag in language_tags(Some(&language)).as_slice() {
        if !text.is_empty() {
            text.push(' ').expect(rt, "memory");
        }
        push_tag(rt, &mut text, *tag);
    }
    text
}

#[test]
fn languages_have_the_tags_of_harfbuzz(rt: HostRuntime) {
    for row in ANSWERS.split(';') {
        if let Some((name, wanted)) = row.split_once('=') {
            let found = tags_of(&rt, name);
            assert_row(&rt, row, found.as_str(), wanted);
        }
    }
}
